// What a replica does with a certificate.
ghost use Rattle.std.specs.Prelude.{◌≡◌};
ghost use Rattle.std.specs.Option.{option_map};
ghost use Rattle.replica.specs.Endings.{certificate_outcome, ended_named, judgement};
ghost use Rattle.replica.specs.Steps.{judged, on_certificate, pending_at, rows_ended};
ghost use Rattle.replica.specs.Transactions.{transaction};
ghost use Rattle.replica.specs.Views.{Becomes, config, view};
ghost use Rattle.table.specs.Tables.{with_rows};
ghost use Rattle.wire.specs.Certificates.{certificate_model};

use crate::book::{Delivered, meet_in_table};
use crate::state::{PendingPlace, Replica};
use envelope::name::Name;
use locks::partition::GroupOperations;
use marks::scheme::MarkScheme;
use quorums::genuine::are_genuine;
use quorums::shape::is_shaped;
use table::owned::Table;
use votes::fault::CertificateFault;
use votes::state::State;
use votes::vote::Vote;
use wire::certificate::Certificate;

// Does what the end of a transaction does to rows: a commit writes them.
fn end_rows(transaction: &GroupOperations, rows: &mut Table<u32, u64>, vote: Vote)
    ensures { rows.new ≡ with_rows rows.old (rows_ended transaction.now.partition.groups transaction.now.partition.group vote transaction.now.operations.now rows.old.rows) }
{
    match vote {
        Vote::Commit => transaction.write_values(rows),
        Vote::Abort => {}
    }
}

impl Replica {
    // The pending transaction of this name.
    fn pending_of(&self, name: &Name) -> Option<PendingPlace>
        ensures { option_map transaction result ≡ pending_at (config self.now) (view self.now) name.now }
    {
        match self.book.get(name) {
            Some(State::Pending) => self.pending.find(name),
            _ => None,
        }
    }

    // The pending transaction that the certificate is valid for, or why it is refused.
    fn judge<K: MarkScheme>(
        &self,
        scheme: &K,
        certificate: &Certificate,
    ) -> Result<PendingPlace, CertificateFault>
        ensures { judgement result ≡ judged (config self.now) (K.genuine scheme.now) (certificate_model certificate.now) (pending_at (config self.now) (view self.now) (certificate_model certificate.now).name) }
    {
        let name = certificate.name();
        let vote = certificate.vote();
        let entries = certificate.entries();
        let Some(held) = self.pending_of(&name) else {
            return Err(CertificateFault::NotPending);
        };
        let transaction = GroupOperations {
            partition: self.partition,
            operations: held.body.operations(),
        };
        if !is_shaped(&transaction, self.tolerance, vote, entries) {
            return Err(CertificateFault::Shape);
        }
        if !are_genuine(scheme, &name, vote, entries) {
            return Err(CertificateFault::NotGenuine);
        }
        Ok(held)
    }

    // Ends the transaction of this name as the vote says.
    fn end(&mut self, name: &Name, vote: Vote)
        ensures { Becomes self.old self.new (ended_named (config self.old) (view self.old) name.now vote) }
    {
        meet_in_table(&mut self.book, name, Delivered::Certificate(vote));
        if let Some(held) = self.pending.release(name) {
            let transaction = GroupOperations {
                partition: self.partition,
                operations: held.body.operations(),
            };
            end_rows(&transaction, &mut self.rows, vote);
        }
    }

    // Takes a certificate.
    pub(crate) fn take_certificate<K: MarkScheme>(
        &mut self,
        scheme: &K,
        certificate: &Certificate,
    ) -> Result<(), CertificateFault>
        ensures after { Becomes self.old self.new (on_certificate (config self.old) (K.genuine scheme.now) (view self.old) (certificate_model certificate.now)).0 }
        ensures outcome { certificate_outcome result ≡ (on_certificate (config self.old) (K.genuine scheme.now) (view self.old) (certificate_model certificate.now)).1 }
    {
        let name = certificate.name();
        self.judge(scheme, certificate)?;
        self.end(&name, certificate.vote());
        Ok(())
    }
}
