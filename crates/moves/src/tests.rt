// `Check::outcome` as a caller asks for it: 02's own record, spoiled in one way after another.
use crate::Check;
use refusals::Refusal;
use wide::Seen;

const OLD: [u8; 6] = [0x14, 0x88, 0x58, 0, 0, 0];

const NEW: [u8; 6] = [0x24, 0x88, 0x58, 0, 0, 0];

#[test]
fn header_refused(rt: HostRuntime) {
    for (header, edition, want) in [
        (OLD, 1, Ok(())),
        (NEW, 2, Ok(())),
        (NEW, 1, Err(Refusal::Edition)),
        (OLD, 2, Err(Refusal::Edition)),
        ([0x14, 0x88, 0x58, 0, 0, 1], 1, Err(Refusal::ZeroField)),
        ([0x14, 0x8f, 0xff, 0, 0, 0], 1, Err(Refusal::Period)),
    ] {
        assert_eq!(rt; Check::begun(&header, edition).outcome(), want);
    }
    assert_eq!(rt;
        Check::begun(&OLD[..5], 1).outcome(),
        Err(Refusal::HeaderLength)
    );
}

#[test]
fn old_records(rt: HostRuntime) {
    let c = Check::begun(&OLD, 1);
    for (record, want) in [
        ([0, 0, 0x0c, 0x9b, 0x01, 0x23], Ok(())),
        ([0, 0, 0, 0x9b, 0x01, 0x23], Err(Refusal::ZeroStep)),
    ] {
        assert_eq!(rt; c.over(&record).outcome(), want);
        assert_eq!(rt;
            c.over(&record).over(&record[..5]).outcome(),
            Err(Refusal::CutShort)
        );
    }
}

#[test]
fn new_records(rt: HostRuntime) {
    let c = Check::begun(&NEW, 2);
    for (record, want) in [
        ([0, 0, 0x0c, 0xd3, 0x60, 0x24, 0x60, 0], Ok(())),
        ([0, 0, 0, 0xd3, 0x60, 0x24, 0x60, 0], Err(Refusal::ZeroStep)),
        (
            [0, 0, 0x0c, 0xd3, 0x60, 0x24, 0x60, 1],
            Err(Refusal::ZeroBits),
        ),
        (
            [0, 0, 0x0c, 0x53, 0x60, 0x24, 0x60, 0],
            Err(Refusal::NoWayBack),
        ),
    ] {
        assert_eq!(rt; c.over(&record).outcome(), want);
        assert_eq!(rt;
            c.over(&record).over(&record[..7]).outcome(),
            Err(Refusal::CutShort)
        );
    }
}

#[test]
fn made_by_hand(rt: HostRuntime) {
    let seen = Seen {
        zero: false,
        spare: false,
        stays: false,
    };
    for (refused, want) in [
        (0, Err(Refusal::TooMany)),
        (8, Err(Refusal::EndEdge)),
        (9, Err(Refusal::Room)),
        (10, Err(Refusal::Burst)),
        (11, Err(Refusal::Register(0))),
        (12, Err(Refusal::State)),
        (13, Err(Refusal::NoWayBack)),
        (17, Err(Refusal::State)),
        (779, Err(Refusal::Register(3))),
        (65291, Err(Refusal::Register(255))),
        (65547, Err(Refusal::State)),
        (4294967295, Err(Refusal::State)),
    ] {
        let c = Check {
            edition: 1,
            refused,
            bytes: 6 * 1048577,
            seen,
        };
        assert_eq!(rt; c.outcome(), want, "{refused}");
    }
}
