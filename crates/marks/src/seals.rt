// Seals: HMAC-SHA-256 under a key of the replica, with an allowance of marks for each.
ghost use Rattle.std.specs.Prelude.{◌≡◌};
ghost use Rattle.marks.specs.Seals.{GenuineIsHmac, is_seal, is_spent, place_of, seal_of, used_at};
ghost use Rattle.std.proofs.Common.{rules};

use crate::equal::equal_bytes;
use crate::fault::GiveFault;
use crate::scheme::MarkScheme;
use digest::hmac;
use octets::put;
use votes::statement::Statement;

/// How many bytes a seal has.
pub const SEAL_SIZE: usize = 32;

/// How many replicas have a key: seven in each of eight groups.
pub const HOLDERS: usize = 56;

/// A replica's key, and its allowance: how many seals it may still get.
#[derive(Clone, Copy)]
pub struct Holder {
    pub key: [u8; 32],
    pub allowance: u16,
}

/// The scheme of seals. Replica r of group g has the holder at 7 × g + r; a replica above 6 or a group above 7 has none.
#[derive(Clone, Copy)]
pub struct Seals {
    // One array, and not one for each group: the field is public, and users write it as one.
    pub holders: [Holder; HOLDERS],
}

// Where the holder of a replica stands.
fn holder_at(group: u8, replica: u8) -> Option<usize>
    ensures { result ≡ place_of group replica }
{
    (group < 8 && replica < 7).then(|| 7 * group as usize + replica as usize)
}

// The seal of the statement under the key.
fn seal(key: &[u8; 32], statement: &Statement) -> [u8; 32]
    ensures { result ≡ seal_of key.now statement.now }
{
    hmac(key, &statement.to_bytes())
}

impl MarkScheme for Seals {
    const SIZE: usize = SEAL_SIZE;

    ghost SIZE = { 32 };

    ghost genuine = { λ s statement mark. is_seal s.holders statement mark };

    ghost spent = { λ s group replica. is_spent s.holders group replica };

    ghost leaves = { λ before statement after. after.holders ≡ used_at before.holders (place_of statement.group statement.replica) };

    ghost sized = { Prim.search rules };

    fn give(&mut self, statement: &Statement, out: &mut [u8]) -> Result<(), GiveFault> {
        if out.len() < SEAL_SIZE {
            return Err(GiveFault::ShortBuffer);
        }
        let at = holder_at(statement.group, statement.replica).ok_or(GiveFault::Spent)?;
        let holder = &mut self.holders[at];
        if holder.allowance == 0 {
            return Err(GiveFault::Spent);
        }
        holder.allowance -= 1;
        put(out, 0, &seal(&holder.key, statement));
        Ok(())
    }

    fn check(&self, statement: &Statement, mark: &[u8]) -> bool {
        holder_at(statement.group, statement.replica).is_some_and(|at| equal_bytes(
            &seal(&self.holders[at].key, statement),
            mark,
        ))
    }
}

/// The genuine mark of a statement is HMAC-SHA-256 of its 36 bytes under the replica's key, and only that.
pub fn genuine_is_hmac() -> u8
    ensures { GenuineIsHmac }
{
    0
}
