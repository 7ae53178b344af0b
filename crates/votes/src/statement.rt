// The statement that a mark is for: which replica gave which vote on which name.
ghost use Rattle.std.specs.Prelude.{◌≡◌};
ghost use Rattle.votes.specs.Statements.{OneStatement, statement_bytes};

use envelope::message::VERSION;
use envelope::name::Name;
use octets::writer::Writer;

/// How many bytes a statement has.
pub const STATEMENT_SIZE: usize = 36;

/// That this replica of this group gave this vote on this name. A faulty replica may state any vote byte.
#[derive(Clone, Copy)]
pub struct Statement {
    pub group: u8,
    pub replica: u8,
    pub vote: u8,
    pub name: Name,
}

impl Statement {
    /// The statement's one writing.
    pub fn to_bytes(&self) -> [u8; STATEMENT_SIZE]
        ensures { result ≡ statement_bytes self.now }
    {
        let mut out = [0; STATEMENT_SIZE];
        let mut writer = Writer::new(&mut out);
        writer.put(&[VERSION, self.group, self.replica, self.vote]);
        writer.put(&self.name.bytes);
        out
    }
}

/// Two statements that are written alike are the same.
pub fn statement_has_one_writing() -> u8
    ensures { OneStatement }
{
    0
}
