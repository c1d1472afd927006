// Writing the sheet of a placed plan, at the side that it is placed at.
ghost use Rattle.std.specs.Prelude.{◌≡◌, true, ◌+◌, ◌≤◌, ◌++◌, length};
ghost use Rattle.placing.specs.rules.Units.{OnPlan};
ghost use Rattle.placing.specs.rules.Corner.{Corner};
ghost use Rattle.plan.specs.rules.Refusal.{number_by};
ghost use Rattle.plan.specs.rules.Text.{most_name_bytes};
ghost use Rattle.plan.specs.rules.Calls.{write_tests};
ghost use Rattle.plan.specs.calls.Plan.{sites_in};
ghost use Rattle.plan.specs.calls.Answers.{sheet_for, written_in, buffer_after, written_length, carried_at};
ghost use Rattle.plan.specs.calls.Lengths.{longest_side_line, longest_site_line, longest_sheet};
ghost use Rattle.plan.specs.code.Taken.{site_of};
ghost use Rattle.plan.specs.code.SheetParts.{side_line_ended, site_line_ended, SideSmall};
ghost use Rattle.plan.specs.Demands.{SheetWritten, WriteTold};

use crate::name::Name;
use crate::page::Page;
use crate::plan::Plan;
use crate::refusal::Refusal;
use placing::units::{Place, Side};

// The first line: the word side, a tab and the side.
fn put_side(page: &mut Page, side: Side)
    requires { SideSmall side × (length page.old + longest_side_line ≤ longest_sheet) }
    ensures { page.new ≡ page.old ++ side_line_ended side }
{
    page.put(b"side\t");
    match side {
        Side::Number(h) => page.number(h.0),
        Side::Free => page.put(b"free"),
    }
    page.byte(b'\n');
}

// The line of a site: name, x, y, corner.
fn put_site(page: &mut Page, name: Name, place: Place, corner: u8)
    requires { (name.len ≤ most_name_bytes) × OnPlan place × Corner corner × (length page.old + longest_site_line ≤ longest_sheet) }
    ensures { page.new ≡ page.old ++ site_line_ended (site_of name place) corner }
{
    page.put(name.text());
    page.byte(b'\t');
    page.number(place.x.0);
    page.byte(b'\t');
    page.number(place.y.0);
    page.byte(b'\t');
    page.number(u32::from(corner));
    page.byte(b'\n');
}

impl Plan {
    // The whole sheet of a placed plan.
    pub(crate) fn compose(&self) -> Page
        requires { self.now.placed ≡ true }
        ensures { result ≡ sheet_for self.now }
    {
        let placement = self.placement.unwrap();
        let mut page = Page::new();
        put_side(&mut page, placement.side);
        // By index: put_site asks of a site's name, place and corner what a plan holds at its index; two zips nest them and are no plainer.
        for i in 0..self.count {
            put_site(
                &mut page,
                self.names[i],
                self.places[i],
                placement.corners[i],
            );
        }
        page
    }

    // Writes the sheet into the buffer: tests 9, 10.
    pub fn write(&self, buffer: &mut [u8]) -> Result<usize, Refusal>
        ensures answer { result ≡ written_in self.now buffer.old }
        ensures buffer { buffer.new ≡ buffer_after self.now buffer.old }
        ensures sheet { SheetWritten self.now.way (sites_in self.now) self.now.side result buffer.new }
        ensures told { WriteTold self.now buffer.old result buffer.new }
        ensures value { written_length result
            ≡ carried_at (number_by (write_tests self.now.placed (sheet_for self.now) buffer.old)) (length (sheet_for self.now)) }
    {
        if self.placement.is_none() {
            return Err(Refusal::NotPlaced);
        }
        let sheet = self.compose();
        let text = sheet.text();
        let n = text.len();
        if buffer.len() < n {
            return Err(Refusal::ShortBuffer);
        }
        buffer[..n].copy_from_slice(text);
        Ok(n)
    }
}
