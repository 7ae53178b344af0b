// Why a delivery is refused. A fault holds the whole fault of the layer below it.
ghost use Rattle.std.specs.Prelude.{◌≡◌};
ghost use Rattle.votes.specs.Faults.{certificate_number, delivery_number};
ghost use Rattle.votes.specs.declared.fault.CertificateFault.TheVariants.{Read};
ghost use Rattle.votes.specs.declared.fault.DeliveryFault.TheVariants.{Certificate};

use envelope::fault::ReadFault;

/// Why a certificate is refused.
#[derive(Clone, Copy, Debug, PartialEq, Eq)]
pub enum CertificateFault {
    /// What the reader refuses.
    Read(ReadFault),
    /// Its transaction is not pending here.
    NotPending,
    /// It has not the entries that its transaction and its vote ask for.
    Shape,
    /// A mark is not genuine.
    NotGenuine,
}

/// Why a delivery is refused.
#[derive(Clone, Copy, Debug, PartialEq, Eq)]
pub enum DeliveryFault {
    /// What a certificate is refused for.
    Certificate(CertificateFault),
    /// A body names no key of the group.
    NoKeyHere,
    /// The name is new, and the book is full.
    BookFull,
    /// The replica is spent: the step is done, and no answer is written.
    Spent,
}

impl From<ReadFault> for CertificateFault {
    ghost from_gives = { λ e r. r ≡ Read e };

    fn from(read: ReadFault) -> CertificateFault {
        CertificateFault::Read(read)
    }
}

impl From<CertificateFault> for DeliveryFault {
    ghost from_gives = { λ e r. r ≡ Certificate e };

    fn from(certificate: CertificateFault) -> DeliveryFault {
        DeliveryFault::Certificate(certificate)
    }
}

impl From<CertificateFault> for u8 {
    // The number in the table of refusals.
    ghost from_gives = { λ fault number. number ≡ certificate_number fault };

    fn from(fault: CertificateFault) -> u8 {
        match fault {
            CertificateFault::Read(fault) => fault.into(),
            CertificateFault::NotPending => 13,
            CertificateFault::Shape => 14,
            CertificateFault::NotGenuine => 15,
        }
    }
}

impl From<DeliveryFault> for u8 {
    // The number in the table of refusals.
    ghost from_gives = { λ fault number. number ≡ delivery_number fault };

    fn from(fault: DeliveryFault) -> u8 {
        match fault {
            DeliveryFault::Certificate(fault) => fault.into(),
            DeliveryFault::NoKeyHere => 11,
            DeliveryFault::BookFull => 12,
            DeliveryFault::Spent => 16,
        }
    }
}
