// The release of vats: a row of the day's log as it is read, what the records of a vat's chunks say together, the
// judgement on it, and which pages may hold a dip below the limit.

#![tactic(auto)]

mod decision;
mod dips;
mod row;
mod vat_record;
mod verdict;

pub use decision::Decision;
pub use dips::{admits_dip, is_dip};
pub use row::{BadRow, Row};
pub use vat_record::VatRecord;
pub use verdict::judge;

#[cfg(test)]
mod tests {
    use super::*;
    use buffers::Buffer;
    use floats::{Bits, DoubleBits};
    use kinds::ValueOf;

    fn hold(line: &str) -> Result<Option<DoubleBits>, BadRow> {
        Row::try_from(line).map(|row| row.hold)
    }

    #[test]
    fn reads_rows(rt: HostRuntime) {
        assert_eq!(rt;
            hold("06:15:30,V1,72.5"),
            Ok(Some(Bits(0x4052_2000_0000_0000)))
        );
        assert_eq!(rt; hold("23:59:59,V1,"), Ok(None));
        assert_eq!(rt;
            hold("00:00:00,V1,nan"),
            Ok(Some(Bits(0x7FF8_0000_0000_0000)))
        );
    }

    #[test]
    fn refuses_rows(rt: HostRuntime) {
        assert_eq!(rt; hold("06:15:30,V1"), Err(BadRow::Cells));
        assert_eq!(rt; hold("06:15:30,V1,72.5,x"), Err(BadRow::Cells));
        assert_eq!(rt; hold("24:00:00,V1,72.5"), Err(BadRow::Time));
        assert_eq!(rt; hold("6:15:30,V1,72.5"), Err(BadRow::Time));
        assert_eq!(rt; hold("06:15:30,,72.5"), Err(BadRow::Vat));
        assert_eq!(rt; hold("06:15:30,V1,warm"), Err(BadRow::Hold));
        assert_eq!(rt; hold("06:15:30,V1,inf"), Err(BadRow::Hold));
        assert_eq!(rt; hold("06:15:30,V1, 72.5"), Err(BadRow::Hold));
    }

    // A record's smallest value.
    fn kept(hold: DoubleBits) -> Option<Buffer<128>> {
        let mut value = Buffer::new();
        value.extend(hold.as_bytes(&mut [0; 8]))?;
        Some(value)
    }

    #[test]
    fn judges(rt: HostRuntime) {
        let limit = Bits(0x4052_0000_0000_0000);
        let above = Bits(0x4052_2000_0000_0000);
        let below = Bits(0x4051_F000_0000_0000);
        let nan = Bits(0x7FF8_0000_0000_0000);
        assert_eq!(rt; judge(kept(above), limit), Decision::Released);
        assert_eq!(rt; judge(kept(limit), limit), Decision::Released);
        assert_eq!(rt; judge(kept(below), limit), Decision::BelowLimit);
        assert_eq!(rt; judge(kept(nan), limit), Decision::ProbeFailed);
        assert_eq!(rt; judge(None, limit), Decision::NoReading);
    }

    #[test]
    fn finds_dips(rt: HostRuntime) {
        let limit = Bits(0x4052_0000_0000_0000);
        assert!(rt; is_dip(Bits(0x4051_F000_0000_0000), limit));
        assert!(rt; !is_dip(limit, limit));
        assert!(rt; !is_dip(Bits(0xFFF8_0000_0000_0000), limit));
    }
}
