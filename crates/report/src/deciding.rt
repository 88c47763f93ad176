// What `confine` decides of an input: 17 first, then 15 for another version than 1, then the image's other refusals, then the test's.
ghost use Rattle.std.specs.Prelude.{◌≡◌};
ghost use Rattle.report.specs.Input.{wrong_length};
ghost use Rattle.report.specs.Decisions.{image_decision, test_decision, decision_of};
ghost use Rattle.image.specs.Images.{read_of};

use bounds::Grown;
use confinement::TestRefusal;
use lines::{Decision, Refused};
use numbers::Numbered;
use table::Table;

// 17: too short for a count byte, or not as long as its count says.
fn wrong_length(input: &[u8]) -> bool
    ensures { result ≡ wrong_length input.now }
{
    if input.len() < 1932 {
        return true;
    }
    input.len() != 1932 + 2 * (input[1931] as usize)
}

// The table of an image, or the refusal by its number.
fn read(image: &[u8]) -> Result<Table, Refused>
    ensures { result ≡ image_decision (read_of image.now) }
{
    match image::read(image) {
        Ok(t) => Ok(t),
        Err(why) => Err(Refused {
            number: Numbered::number(why),
        }),
    }
}

// What the test's answer decides: the bound, or the refusal by its number.
fn of_test(tested: Result<Grown, TestRefusal>) -> Decision
    ensures { result ≡ test_decision tested }
{
    match tested {
        Ok(found) => Ok(found.bound),
        Err(why) => Err(Refused {
            number: Numbered::number(why),
        }),
    }
}

// What is decided of the input.
pub fn decide(input: &[u8]) -> Decision
    ensures { result ≡ decision_of input.now }
{
    if wrong_length(input) {
        return Err(Refused { number: 17 });
    }
    if input[2] != image::HEAD_ONE[2] {
        return Err(Refused { number: 15 });
    }
    let t = read(&input[..1923])?;
    let members = octets::number_of(&input[1923..1931]);
    let list = entries::list_of(&input[1932..]);
    of_test(confinement::test(t, members, list))
}
