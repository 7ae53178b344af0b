// A seal of a published kind, the allowance, and stamps.
use crate::fault::GiveFault;
use crate::scheme::MarkScheme;
use crate::seals::{HOLDERS, Holder, Seals};
use crate::stamps::Stamps;
use envelope::name::Name;
use votes::statement::Statement;

// A commit of replica 0 of group 0 on the transaction whose body reads key 4, with nonce 1.
const STATEMENT: Statement = Statement {
    group: 0,
    replica: 0,
    vote: 1,
    name: Name {
        bytes: *b"\xc7\x6e\x77\x24\x4f\x19\x02\x1a\x4c\x67\xf3\x8d\xe9\x40\xc1\x97\xdf\xf0\xf3\xa7\xc1\x79\xde\x7f\x24\xbe\xc0\x2d\xba\x14\x11\xb2",
    },
};

#[test]
fn a_seal_is_given_once_for_each_of_the_allowance(rt: HostRuntime) {
    let mut key = [0; 32];
    for (byte, number) in key.iter_mut().zip(0..32) {
        *byte = number;
    }
    let holder = Holder { key, allowance: 1 };
    let mut seals = Seals {
        holders: [holder; HOLDERS],
    };
    let mut out = [0xee; 33];
    assert_eq!(rt;
        seals.give(&STATEMENT, &mut out[0..31]),
        Err(GiveFault::ShortBuffer)
    );
    assert_eq!(rt; seals.give(&STATEMENT, &mut out), Ok(()));
    let expected =
        b"\x3b\x9a\x56\x2b\x80\x28\x63\xda\xcd\x98\xeb\x9f\x88\x62\x2f\xc6\xbd\x31\x7e\xea\x20\x91\x9c\xf7\xad\xd2\x45\x54\xe0\x30\xab\xda";
    assert!(rt; &out[0..32] == expected.as_slice() && out[32] == 0xee);
    assert!(rt; seals.check(&STATEMENT, &out[0..32]));
    out[31] ^= 1;
    assert!(rt;
        !seals.check(&STATEMENT, &out[0..32]),
        "the last bit turned"
    );
    assert_eq!(rt; seals.give(&STATEMENT, &mut out), Err(GiveFault::Spent));
}

#[test]
fn a_stamp_is_the_statement(rt: HostRuntime) {
    let mut out = [0xee; 37];
    let mut stamps = Stamps;
    assert_eq!(rt; stamps.give(&STATEMENT, &mut out), Ok(()));
    assert!(rt; &out[0..36] == STATEMENT.to_bytes().as_slice() && out[36] == 0xee);
    assert!(rt; stamps.check(&STATEMENT, &out[0..36]) && !stamps.check(&STATEMENT, &out));
}
