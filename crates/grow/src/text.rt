// What the program writes, and then a line feed: the number of half units, the word never, or the refusal.
ghost use Rattle.std.specs.Prelude.{◌≡◌};
ghost use Rattle.grow.specs.Text.{asked_text};

use placing::units::Growth;
use plan::page::Page;
use plan::refusal::Refusal;

// What is told of two labels. A page, since what prints could fail, and there is always something to tell (edit never_untold).
#[tactic(auto, using(crate::specs::TextLaws::decimal_ten))]
pub(crate) fn asked_text(asked: Result<Growth, Refusal>) -> Page
    ensures { result ≡ asked_text asked }
{
    let mut page = Page::new();
    match asked {
        Ok(Growth::UpTo(most)) => page.number(most.0),
        Ok(Growth::Never) => page.put(b"never"),
        Err(why) => {
            page.put(b"refused\t");
            page.number(u32::from(u8::from(why)));
        }
    }
    page
}
