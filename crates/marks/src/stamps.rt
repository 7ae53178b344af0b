// Stamps: marks that anyone can make, for benches.
ghost use Rattle.std.specs.Prelude.{◌≡◌, false};
ghost use Rattle.std.specs.Str.{bytes_eq};
ghost use Rattle.votes.specs.Statements.{statement_bytes};
ghost use Rattle.std.proofs.Common.{rules};

use crate::equal::equal_bytes;
use crate::fault::GiveFault;
use crate::scheme::MarkScheme;
use octets::put;
use votes::statement::{STATEMENT_SIZE, Statement};

/// The scheme whose mark of a statement, a stamp, is the statement itself. No replica is ever spent.
#[derive(Clone, Copy)]
pub struct Stamps;

impl MarkScheme for Stamps {
    const SIZE: usize = STATEMENT_SIZE;

    ghost SIZE = { 36 };

    ghost genuine = { λ _ s mark. bytes_eq (statement_bytes s) mark };

    ghost spent = { λ _ _ _. false };

    ghost leaves = { λ before _ after. after ≡ before };

    ghost sized = { Prim.search rules };

    fn give(&mut self, statement: &Statement, out: &mut [u8]) -> Result<(), GiveFault> {
        if out.len() < STATEMENT_SIZE {
            return Err(GiveFault::ShortBuffer);
        }
        put(out, 0, &statement.to_bytes());
        Ok(())
    }

    fn check(&self, statement: &Statement, mark: &[u8]) -> bool {
        equal_bytes(&statement.to_bytes(), mark)
    }
}
