// How many lines of a list come to what.
ghost use Rattle.std.specs.Prelude.{◌≡◌, ◌<◌, replicate};
ghost use Rattle.replay.specs.Counts.{one_more, place_of, Counted};

use answers::{Outcome, Stored, Told};

// The components are 1 to 10; 0 stands for every other number, and for a plan.
const PLACES: usize = 11;

#[derive(Clone, Copy)]
pub struct Tally {
    pub lines: u64,
    pub unread: u64,
    // By what the list says.
    pub accepted: u64,
    pub refused: u64,
    pub at_leaf: u64,
    pub malformed: u64,
    pub short: u64,
    // By component.
    pub agree: [u64; PLACES],
    pub differ: [u64; PLACES],
}

// One more; the largest number stays.
fn more(n: u64) -> u64
    ensures { result ≡ one_more n }
{
    n.saturating_add(1)
}

#[tactic(auto, using(std::proofs::lemmas::Bool::Decides::nat_tests), unfolding(crate::specs::Counts::place_of))]
fn place(component: u32) -> usize
    ensures { (result < 11) × (result ≡ place_of component) }
{
    if component < 11 {
        component as usize
    } else {
        0
    }
}

impl Tally {
    pub(crate) fn new() -> Self
        ensures { (result.lines ≡ 0) × (result.unread ≡ 0) × (result.agree ≡ replicate 11 0) × (result.differ ≡ replicate 11 0) }
    {
        Tally {
            lines: 0,
            unread: 0,
            accepted: 0,
            refused: 0,
            at_leaf: 0,
            malformed: 0,
            short: 0,
            agree: [0; PLACES],
            differ: [0; PLACES],
        }
    }

    fn with_told(mut self, told: Told) -> Self
        ensures { (result.lines ≡ self.lines) × (result.unread ≡ self.unread) × (result.agree ≡ self.agree) × (result.differ ≡ self.differ) }
    {
        match told {
            Told::Accepted => self.accepted = more(self.accepted),
            Told::Refused => self.refused = more(self.refused),
            Told::AtLeaf => self.at_leaf = more(self.at_leaf),
            Told::Malformed => self.malformed = more(self.malformed),
            Told::Short => self.short = more(self.short),
        }
        self
    }

    // With one line more.
    pub(crate) fn counted(mut self, o: Outcome) -> Self
        ensures { (result.lines ≡ one_more self.lines) × Counted o self result }
    {
        self.lines = more(self.lines);
        match o {
            Outcome::Comment => self,
            Outcome::Unread => {
                self.unread = more(self.unread);
                self
            }
            Outcome::Agrees(said) => {
                let k = place(said.component);
                self.agree[k] = more(self.agree[k]);
                self.with_told(said.told)
            }
            Outcome::Differs(said, _) => {
                let k = place(said.component);
                self.differ[k] = more(self.differ[k]);
                self.with_told(said.told)
            }
        }
    }

    pub(crate) fn print(self, rt: &impl Print, list: Stored) {
        let agree = sum(&self.agree);
        let differ = sum(&self.differ);
        let _ = println!(rt; "{}: {agree} agree, {differ} differ", name(list));
        match list {
            Stored::Calls => {
                self.print_calls(rt);
                self.print_places(rt);
            }
            Stored::Plans => self.print_plans(rt),
        }
    }

    fn print_calls(self, rt: &impl Print) {
        let _ = println!(rt;
            "{} accepted, {} refused, {} outputs too short; {} of {} lines cannot be read",
            self.accepted, self.refused, self.short, self.unread, self.lines
        );
    }

    fn print_plans(self, rt: &impl Print) {
        let _ = println!(rt;
            "{} accepted, {} refused at a leaf, {} refused at a step, {} malformed, {} work buffers too short; {} of {} lines cannot be read",
            self.accepted,
            self.at_leaf,
            self.refused,
            self.malformed,
            self.short,
            self.unread,
            self.lines
        );
    }

    fn print_places(self, rt: &impl Print) {
        let agree = self.agree;
        let differ = self.differ;
        for k in 0..PLACES {
            let name = words::component(k as u32);
            let _ = println!(rt; "{name}: {} agree, {} differ", agree[k], differ[k]);
        }
    }
}

// A list's name, which begins what is said of it.
pub(crate) fn name(list: Stored) -> &'static str {
    match list {
        Stored::Calls => "single calls",
        Stored::Plans => "plans",
    }
}

fn sum(counts: &[u64; PLACES]) -> u64 {
    counts.iter().fold(0, |total, n| total.wrapping_add(*n))
}
