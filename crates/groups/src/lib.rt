// Potential access worked by groups, document 02, 2.9: the answer of the rules, by a shorter way. Objects joined by held rd, wr or tx are one
// group, which is found once; wk goes over links between groups.
#![tactic(auto)]

ghost use Rattle.std.specs.Prelude.{◌≡◌};
ghost use Rattle.access.specs.Answers.{access_of};
ghost use Rattle.groups.specs.Helpers.{laid_out};

use access::AccessRefusal;
use table::Table;

// The rows of the answer: all four rights over the group, wk over whom links lead to.
fn laid_out(groups: &[u64; 64], led: &[u64; 64]) -> [u64; 256]
    ensures { result ≡ laid_out groups.now led.now }
{
    let mut r = [0u64; 256];
    for (x, group) in groups.iter().enumerate() {
        r[x] = *group;
        r[64 + x] = *group;
        r[128 + x] = led[x];
        r[192 + x] = *group;
    }
    r
}

// The whole relation of a sound table.
pub fn potential_access(t: Table) -> Result<[u64; 256], AccessRefusal>
    ensures { result ≡ access_of t }
{
    if !table::is_sound(t) {
        return Err(AccessRefusal::TableUnsound);
    }
    let born = access::start::born_outside(t.records, 0);
    let mut joins = [0u64; 64];
    let mut over = [0u64; 64];
    held::held_words(t.slots, born, false, &mut joins, &mut over);
    let mut groups = [0u64; 64];
    let mut links = [0u64; 64];
    let leading = leads::group_words(&joins, &over, born, &mut groups, &mut links);
    let led = leads::led_words(&groups, &links, born, leading);
    let rows = laid_out(&groups, &led);
    Ok(rows)
}
