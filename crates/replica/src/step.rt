// The step: what one message of the group's list does to a replica.
ghost use Rattle.std.specs.Prelude.{◌≡◌, ◌+◌, ◌^◌, ◌<◌};
ghost use Rattle.replica.specs.Readings.{ReadsCertificate};
ghost use Rattle.replica.specs.Steps.{acted, stepped};
ghost use Rattle.replica.specs.Views.{Becomes, config, outcome, view};
ghost use Rattle.readings.specs.Messages.{parsed};

use crate::reply::Reply;
use crate::state::{PendingPlace, Replica};
use bodies::body::reader::read_body;
use bodies::naming::name_of;
use marks::scheme::MarkScheme;
use votes::fault::{CertificateFault, DeliveryFault};
use wire::certificate::Certificate;
use wire::certificate::reader::read_certificate;
use wire::proposal::read_proposal;

// Reads a certificate with marks of `width` bytes.
fn read(width: usize, message: &[u8]) -> Result<Certificate, CertificateFault>
    ensures { ReadsCertificate width message.now result }
{
    let certificate = read_certificate(width, message)?;
    Ok(certificate)
}

impl Replica {
    // Does what the message says.
    fn act<K: MarkScheme>(
        &mut self,
        scheme: &K,
        message: &[u8],
    ) -> Result<Option<Reply>, DeliveryFault>
        ensures after { Becomes self.old self.new (acted (config self.old) (K.genuine scheme.now) (view self.old) (parsed K.SIZE message.now)).0 }
        ensures outcome { outcome result ≡ (acted (config self.old) (K.genuine scheme.now) (view self.old) (parsed K.SIZE message.now)).1 }
    {
        if let Ok(body) = read_body(message) {
            let name = name_of(message);
            return self.take_body(PendingPlace { name, body });
        }
        if let Ok(name) = read_proposal(message) {
            return self.take_proposal(&name);
        }
        let certificate = read(K::SIZE, message)?;
        self.take_certificate(scheme, &certificate)?;
        Ok(None)
    }

    /// Takes the next message of the group's list: moves the place on by one, and does what the message says. A body or
    /// a proposal gets a reply, a valid certificate gets none.
    pub fn step<K: MarkScheme>(
        &mut self,
        scheme: &K,
        message: &[u8],
    ) -> Result<Option<Reply>, DeliveryFault>
        requires { self.old.place + 1 < 2 ^ 64 }
        ensures state { view self.new ≡ (stepped (config self.old) (K.genuine scheme.now) K.SIZE (view self.old) message.now).0 }
        ensures outcome { outcome result ≡ (stepped (config self.old) (K.genuine scheme.now) K.SIZE (view self.old) message.now).1 }
        ensures fixed { config self.new ≡ config self.old }
    {
        self.place += 1;
        self.act(scheme, message)
    }
}
