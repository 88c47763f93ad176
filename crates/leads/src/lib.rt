// Groups of numbers, as words: the groups that joined numbers form, the links between groups, and what these lead to. Each group is worked
// once, and whoever is in it has its words.
#![tactic(auto)]

ghost use Rattle.std.specs.Prelude.{◌≡◌, true, false, ℕ, ◌<◌, get_or, length, replicate};
ghost use Rattle.mask.specs.Sets.{has};
ghost use Rattle.relation.specs.Closure.{reached};
ghost use Rattle.links.specs.Links.{word_edge};
ghost use Rattle.leads.specs.Helpers.{Joining, LeadingWith, EndsThere, group_words, group_links, led_words, Leading, Settled, SettledWith};

// The group of x. Who is joined to nobody is a group alone.
fn group_at(joins: &[u64; 64], x: u8) -> u64
    requires { x < 64 }
    ensures { result ≡ reached (word_edge joins.now) x }
{
    if joins[x as usize] == 0 {
        return links::alone(x);
    }
    let spread = sweeps::spread(joins, x);
    spread.set
}

// The numbers of groups that lead on, with one group more: it does where it leads to more than itself.
fn leading_with(leading: u64, group: u64, led: u64) -> u64
    ensures { LeadingWith leading group led result }
{
    if led == group {
        leading
    } else {
        mask::union(leading, group)
    }
}

// The groups of the numbers of a set: word x of `groups` gets the group of x, word x of `links` that group and whom it leads to by a word of
// its numbers. Given back are the numbers whose groups lead on.
pub fn group_words(
    joins: &[u64; 64],
    weak: &[u64; 64],
    among: u64,
    groups: &mut [u64; 64],
    links: &mut [u64; 64],
) -> u64
    requires { Joining among (word_edge joins.now) × (groups.old ≡ replicate 64 0) × (links.old ≡ replicate 64 0) }
    ensures { (groups.new ≡ group_words (word_edge joins.now) among) × (links.new ≡ group_links (word_edge joins.now) (word_edge weak.now) among) × EndsThere among result groups.new links.new }
{
    let mut leading: u64 = 0;
    let mut left = among;
    // Stays: a loop over what is left: with a number its whole group is taken out, which an iterator over the set does not know of.
    while left != 0 {
        let x = sweeps::lowest(left);
        let group = group_at(joins, x);
        let out = sweeps::near(weak, group);
        let led = mask::union(group, out);
        sweeps::put_each(groups, group, group);
        sweeps::put_each(links, group, led);
        leading = leading_with(leading, group, led);
        left = mask::less(left, group);
    }
    leading
}

// A step of a walk: numbers that lead to each other, whom they are known to lead to, and whose links are among those.
#[derive(Debug, Clone, Copy, PartialEq, Eq)]
struct Step {
    objects: u64,
    known: u64,
    passed: u64,
}

// From x on, along a path of steps. A number that is led to and settled gives its whole row; one that is free begins a step of its own; any
// other is on the path, and what leads back there is one step with the step before. When nobody is left to look at, the row of a step is
// known. `path` has room for the steps before the last.
fn settle_from(
    groups: &[u64; 64],
    links: &[u64; 64],
    rows: &mut [u64; 64],
    path: &mut [Step; 64],
    settled: u64,
    unsettled: u64,
    x: u8,
) -> u64
    requires { Leading groups.now links.now × Settled groups.now links.now settled rows.old × (x < 64) × (has x (get_or groups.now x 0) ≡ true) × ((u : ℕ) → u < 64 → has u (get_or groups.now u 0) ≡ true → has u settled ≡ false → has u unsettled ≡ true) × (length path.old ≡ 64) }
    ensures { SettledWith groups.now links.now settled x result rows.new × (length path.new ≡ 64) }
{
    let mut objects = groups[x as usize];
    let mut s = links[x as usize];
    let mut looked = objects;
    let mut free = mask::less(unsettled, objects);
    let mut done = settled;
    let mut depth: usize = 0;
    'walk: loop {
        let left = mask::less(s, looked);
        let ready = mask::common(left, done);
        if ready != 0 {
            let z = sweeps::lowest(ready);
            let row = rows[z as usize];
            s = mask::union(s, row);
            looked = mask::union(looked, row);
            continue 'walk;
        }
        let fresh = mask::common(left, free);
        if fresh != 0 {
            let y = sweeps::lowest(fresh);
            let group = groups[y as usize];
            let word = links[y as usize];
            if depth < 64 {
                path[depth] = Step {
                    objects: objects,
                    known: s,
                    passed: looked,
                };
                depth = depth + 1;
                objects = group;
                s = word;
                looked = group;
                free = mask::less(free, group);
                continue 'walk;
            }
            s = mask::union(s, word);
            looked = mask::union(looked, group);
            continue 'walk;
        }
        if left != 0 {
            depth = depth - 1;
            let before = path[depth];
            objects = mask::union(objects, before.objects);
            s = mask::union(s, before.known);
            looked = mask::union(looked, before.passed);
            continue 'walk;
        }
        sweeps::put_each(rows, objects, s);
        done = mask::union(done, objects);
        if depth == 0 {
            return done;
        }
        depth = depth - 1;
        let prior = path[depth];
        objects = prior.objects;
        looked = mask::union(s, prior.passed);
        s = mask::union(s, prior.known);
    }
}

// Word x: all that links between groups lead to from x, for the numbers of a set. Where a group does not lead on, it is the row itself.
pub fn led_words(groups: &[u64; 64], links: &[u64; 64], among: u64, leading: u64) -> [u64; 64]
    requires { Leading groups.now links.now × ((u : ℕ) → u < 64 → has u among ≡ has u (get_or groups.now u 0)) × EndsThere among leading groups.now links.now }
    ensures { result ≡ led_words (word_edge links.now) among }
{
    let mut rows = *groups;
    let mut path = [Step {
        objects: 0,
        known: 0,
        passed: 0,
    }; 64];
    let mut settled = mask::less(among, leading);
    let mut left = mask::less(among, settled);
    // Stays: a loop over what is left: a walk settles more than the number that it begins at.
    while left != 0 {
        let x = sweeps::lowest(left);
        settled = settle_from(groups, links, &mut rows, &mut path, settled, left, x);
        left = mask::less(among, settled);
    }
    rows
}
