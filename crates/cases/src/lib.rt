// The worked cases, as one statement over the definitions that the contracts of all layers cite; and published vectors,
// which are run.
#![tactic(auto)]

ghost use Rattle.cases.specs.Cases.{CasesHold};

// A law, with nothing to run: every worked case and every worked call sequence comes out as expected.
pub fn worked_cases_hold()
    ensures hold { CasesHold }
{}

#[cfg(test)]
mod tests {
    use crc::checksum;

    #[test]
    fn published_checksums(rt: HostRuntime) {
        assert_eq!(rt; checksum(b"123456789"), 0x31C3);
        assert_eq!(rt; checksum(&[0x6E, 0x00, 0x00, 0x0B, 0x00, 0x00]), 0x2F4A);
        assert_eq!(rt;
            checksum(&[0x6E, 0x00, 0x00, 0x0B, 0x00, 0x00, 0x2F, 0x4A]),
            0x0000
        );
        assert_eq!(rt; checksum(&[0x6E, 0x00, 0x00, 0x0B, 0x00, 0x02]), 0x0F08);
        assert_eq!(rt;
            checksum(&[0x6E, 0x00, 0x00, 0x0B, 0x00, 0x02, 0x0F, 0x08, 0x00, 0x01]),
            0x1021
        );
    }
}
