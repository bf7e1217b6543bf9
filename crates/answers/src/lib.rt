// The stored answers: a line of a list, the call that it asks for, and whether the gate answers as the line says, with every byte of the lent buffer.
#![tactic(auto)]

mod answer; // what the gate answers, held against the list
mod single; // a line of the list of calls, and its call
mod walk; // a line of the list of plans, and its plan call

ghost use Rattle.std.specs.Prelude.{◌≡◌, ◌≤◌, Some, IfSome};
ghost use Rattle.base.specs.Form.{narrow};
ghost use Rattle.plan_form.specs.Form.{node_limit};
ghost use Rattle.calls.specs.Walk.{slot_at};
ghost use Rattle.lines.specs.Fields.{is_comment};
ghost use Rattle.answers.specs.Texts.{number_at};
ghost use Rattle.answers.specs.Answers.{Confirms, Judged};
ghost use Rattle.answers.specs.ListLine.{length_field, asks, stores, defined, stored};

pub use answer::{code_of, value_of};
use base::refusals::Refusal;

// The numbers of the refusals that no node is at fault for.
const MALFORMED: u32 = Refusal::Malformed as u32;

const NO_ROOM: u32 = Refusal::NoRoom as u32;

#[derive(Clone, Copy)]
pub enum Stored {
    Calls,
    Plans,
}

impl Stored {
    // The field that has the length of the lent buffer.
    fn length_field(self) -> usize
        ensures { result ≡ length_field self }
    {
        match self {
            Stored::Calls => 4,
            Stored::Plans => 1,
        }
    }
}

// What a list says of a call or a plan.
#[derive(Clone, Copy)]
pub enum Told {
    Accepted,
    // At a step, where it is a plan's.
    Refused,
    AtLeaf,
    Malformed,
    Short,
}

impl Told {
    // The nodes before `leaves` are the leaves; a call has none.
    fn of_code(code: u32, node: u32, leaves: usize) -> Self {
        match code {
            0 => Told::Accepted,
            MALFORMED => Told::Malformed,
            NO_ROOM => Told::Short,
            _ if (node as usize) < leaves => Told::AtLeaf,
            _ => Told::Refused,
        }
    }
}

// The component, 0 for a plan, and what the list says.
#[derive(Clone, Copy)]
pub struct Said {
    pub component: u32,
    pub told: Told,
}

#[derive(Clone, Copy)]
pub enum Outcome {
    Comment,
    // Not in the list's form.
    Unread,
    Agrees(Said),
    // And the gate's reply.
    Differs(Said, u64),
}

fn on_lent(list: Stored, line: &[u8], lent: &mut [u8], expected: &mut [u8]) -> Option<Outcome>
    ensures { IfSome result (λ o. Confirms o (asks list line.now lent.old) (stores list line.now expected.old)) }
{
    match list {
        Stored::Calls => single::judged(line, lent, expected),
        Stored::Plans => walk::judged(line, lent, expected),
    }
}

// Lent is a filled buffer of n bytes, as many as the line tells. What is expected stands in another, so that every byte of which the line says nothing has
// to be as it was. Apart from the tests in front of it, since buffers that are made before these are cleared before they are filled.
fn in_buffers(list: Stored, line: &[u8], n: usize) -> Option<Outcome>
    requires { (number_at (length_field list) line.now ≡ Some n) × (n ≤ slot_at narrow node_limit) }
    ensures { IfSome result (λ o. Confirms o (defined list line.now) (stored list line.now)) }
{
    let mut lent = answer::filled();
    let mut expected = answer::filled();
    on_lent(list, line, &mut lent[..n], &mut expected[..n])
}

fn read(list: Stored, line: &[u8]) -> Option<Outcome>
    ensures { IfSome result (λ o. Confirms o (defined list line.now) (stored list line.now)) }
{
    let n = answer::number_at(line, list.length_field())? as usize;
    if answer::ROOM < n {
        return None;
    }
    in_buffers(list, line, n)
}

pub fn judged(list: Stored, line: &[u8]) -> Outcome
    ensures { Judged (is_comment line.now) result (defined list line.now) (stored list line.now) }
{
    if lines::is_comment(line) {
        return Outcome::Comment;
    }
    read(list, line).unwrap_or(Outcome::Unread)
}
