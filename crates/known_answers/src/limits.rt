// The limits of the code, by the words of the cases.
use placing::units::Limits;
use plan::limits::TextLimits;
use plan::name::Name;

// The limit of this name, 0 where it is none. The names stand here alone, so that they are matched as text.
pub fn limit(name: &[u8]) -> u64 {
    match name {
        b"sites" => Limits::SITES as u64,
        b"coordinate" => u64::from(Limits::COORDINATE),
        b"least side" => u64::from(Limits::LEAST_SIDE),
        b"greatest side" => u64::from(Limits::GREATEST_SIDE),
        b"free side" => u64::from(Limits::FREE_SIDE),
        b"name" => Name::LONGEST as u64,
        b"line" => TextLimits::LINE as u64,
        b"list" => TextLimits::TEXT as u64,
        b"sheet" => TextLimits::SHEET as u64,
        _ => 0,
    }
}
