// Lines of hexadecimal octets, read as a program would read them.
#![tactic(auto)]

#[cfg(test)]
mod tests {
    use hexline::{Reading, read_line};
    use std::process::Abort;
    use std::test::Fail;

    fn check_blank(rt: &impl Abort, text: &[u8]) {
        assert!(rt;
            matches!(read_line(text).reading(), Reading::Blank),
            "not blank"
        );
    }

    fn check_octets(rt: &impl Abort, text: &[u8], octets: &[u8]) -> Result<(), Fail> {
        match read_line(text).reading() {
            Reading::Octets(found) => {
                assert_eq!(rt; found, octets);
                Ok(())
            },
            Reading::Blank => Err(Fail::new("blank")),
            Reading::NotHex => Err(Fail::new("not octets")),
        }
    }

    fn check_not_hex(rt: &impl Abort, text: &[u8]) {
        assert!(rt;
            matches!(read_line(text).reading(), Reading::NotHex),
            "octets"
        );
    }

    #[test]
    fn no_octet(rt: HostRuntime) {
        check_blank(&rt, b"");
        check_blank(&rt, b" \t:--\r");
        check_blank(&rt, b"# zz 0");
        check_blank(&rt, b"  #");
    }

    #[test]
    fn octets(rt: HostRuntime) -> Result<(), Fail> {
        check_octets(&rt, b"01:02-03 04", &[1, 2, 3, 4])?;
        check_octets(&rt, b" 0102\t03\r", &[1, 2, 3])?;
        check_octets(&rt, b"01 # zz", &[1])?;
        check_octets(&rt, b"01#2", &[1])?;
        check_octets(
            &rt,
            b"abcdef ABCDEF 90",
            &[0xab, 0xcd, 0xef, 0xab, 0xcd, 0xef, 0x90],
        )
    }

    #[test]
    fn not_octets(rt: HostRuntime) {
        check_not_hex(&rt, b"0");
        check_not_hex(&rt, b"0 1");
        check_not_hex(&rt, b"012");
        check_not_hex(&rt, b"0#1");
        check_not_hex(&rt, b"zz");
        check_not_hex(&rt, b"01 02zz");
        check_not_hex(&rt, b"0g");
        check_not_hex(&rt, b"01\xff");
    }

    // The 61st octet is 0x10 and the 62nd is 0x20.
    fn long() -> [u8; 400] {
        let mut text = [b'0'; 400];
        text[120] = b'1';
        text[122] = b'2';
        text
    }

    #[test]
    fn long_lines(rt: HostRuntime) -> Result<(), Fail> {
        let text = long();
        let mut kept = [0; 61];
        kept[60] = 0x10;
        check_octets(&rt, &text[0..120], &kept[0..60])?;
        check_octets(&rt, &text[0..122], &kept)?;
        check_octets(&rt, &text, &kept)
    }

    #[test]
    fn bad_after_many(rt: HostRuntime) -> Result<(), Fail> {
        let mut text = long();
        text[399] = b' ';
        check_not_hex(&rt, &text);
        text[398] = b'#';
        let mut kept = [0; 61];
        kept[60] = 0x10;
        check_octets(&rt, &text, &kept)
    }
}
