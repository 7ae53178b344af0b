// The book: the names that a replica knows, each with its state.
ghost use Rattle.std.specs.Prelude.{◌≡◌, ◌+◌, ◌<◌, ◌≤◌, true, take, None, vec_len};
ghost use Rattle.std.specs.Option.{option_map};
ghost use Rattle.replica.specs.Meetings.{met_named};
ghost use Rattle.replica.specs.Steps.{entered, state_after};
ghost use Rattle.table.specs.Orders.{by_bytes};
ghost use Rattle.table.specs.Rows.{lookup, rising};
ghost use Rattle.table.specs.Tables.{with_rows};

use envelope::name::Name;
use table::owned::Table;
use table::row::Row;
use table::{find, insert};
use votes::state::State;
use votes::vote::Vote;

/// A message that a known name meets: its kind, and for a certificate its vote.
#[derive(Clone, Copy, Debug, PartialEq, Eq)]
pub enum Delivered {
    Body,
    Proposal,
    Certificate(Vote),
}

// Lets a message, which is valid if it is a certificate, meet an entry's state, and answers the state after it.
fn meet(state: &mut State, delivered: Delivered) -> State
    ensures answer { result ≡ state_after state.old delivered }
    ensures after { state.new ≡ state_after state.old delivered }
{
    match (*state, delivered) {
        (State::Pending, Delivered::Certificate(Vote::Commit)) => *state = State::Committed,
        (State::Pending, Delivered::Certificate(Vote::Abort)) => *state = State::RolledBack,
        _ => {}
    }
    *state
}

/// Lets such a message meet the entry of this name, if one of the first `known` entries has it.
pub fn meet_named(
    book: &mut Vec<Row<Name, State>>,
    known: usize,
    name: &Name,
    delivered: Delivered,
) -> Option<State>
    requires { (known ≤ vec_len book.old) × (rising by_bytes (take known book.old.items) ≡ true) }
    ensures state { result ≡ option_map (λ s. state_after s delivered) (lookup by_bytes (take known book.old.items) name.now) }
    ensures after { take known book.new.items ≡ met_named (take known book.old.items) name.now delivered }
    ensures rises { rising by_bytes (take known book.new.items) ≡ true }
    ensures len { vec_len book.new ≡ vec_len book.old }
{
    match find(&book[0..known], name) {
        Ok(at) => Some(meet(&mut book[at].value, delivered)),
        Err(_) => None,
    }
}

/// Enters a new name behind the first `known` entries, and answers how many are filled then. The caller has seen that an
/// entry is free, and that the name has none.
pub fn enter(book: &mut Vec<Row<Name, State>>, known: usize, name: Name, state: State) -> usize
    requires { (known < vec_len book.old) × ((rising by_bytes (take known book.old.items) ≡ true) × (lookup by_bytes (take known book.old.items) name ≡ None)) }
    ensures count { result ≡ known + 1 }
    ensures after { take (known + 1) book.new.items ≡ entered name state (take known book.old.items) }
    ensures rises { rising by_bytes (take (known + 1) book.new.items) ≡ true }
    ensures len { vec_len book.new ≡ vec_len book.old }
{
    match insert(book, known, name, state) {
        Ok(_) => known + 1,
        Err(_) => known,
    }
}

/// Lets such a message meet the entry of this name, if the book is a table that has one.
pub fn meet_in_table(
    book: &mut Table<Name, State>,
    name: &Name,
    delivered: Delivered,
) -> Option<State>
    ensures state { result ≡ option_map (λ s. state_after s delivered) (lookup by_bytes book.old.rows name.now) }
    ensures after { book.new ≡ with_rows book.old (met_named book.old.rows name.now delivered) }
{
    let state = book.get_mut(name)?;
    Some(meet(state, delivered))
}
