//! The example sheets, and a few that are refused, through what `holds` prints.

#![tactic(auto)]

#[cfg(test)]
mod tests {
    use report::report::report;
    use std::process::Abort;
    use std::test::Fail;

    // Whether the text of a sheet is this one.
    fn prints(rt: &(impl Abort + AllocGlobal), sheet: &[u8], text: &[u8]) -> Result<(), Fail> {
        let found = report(rt.alloc(), sheet)?;
        assert!(rt; found.as_slice() == text);
        Ok(())
    }

    #[test]
    fn the_camera(rt: HostRuntime) -> Result<(), Fail> {
        prints(
            &rt,
            b"\x01\x001\x00\x06\x01meter\x05\x01gain\x08\x01denoise\x05\x01view\x03\x02\x00\x01\x03\x02\x01\x02\x03\x02\x02\x00\x03\x02\x02\x03\x03\x02\x03\x01",
            b"low 0\nhigh 4\ncases 0\nhold 0 meter\nhold 1 gain\nhold 2 denoise\nhold 3 view\n",
        )
    }

    #[test]
    fn prices_in_memory(rt: HostRuntime) -> Result<(), Fail> {
        prints(
            &rt,
            b"\x01\x00e\x01\x0b\x01\x00\x00`\x00sensor\x0d\x01\x00\x00\xc0\x00demosaic\x0c\x01\x00\x00\xc0\x00denoise\x0a\x01\x00\x00\x00@meter\x09\x01\x00\x00\x00\x10gain\x0b\x01\x00\x00 \x00encode\x03\x02\x00\x01\x03\x02\x01\x02\x03\x02\x01\x03\x03\x02\x02\x04\x03\x02\x02\x05\x03\x02\x03\x00\x03\x02\x04\x01",
            b"low 0 0\nhigh 131152 6\ncases 0\nhold 0 sensor\nhold 1 demosaic\nhold 2 denoise\nhold 3 meter\nhold 4 gain\nhold 5 encode\n",
        )
    }

    #[test]
    fn live_stages_are_not_held(rt: HostRuntime) -> Result<(), Fail> {
        prints(
            &rt,
            b"\x01\x007\x00\x06\x01meter\x05\x01gain\x02\x03\x01\x08\x01denoise\x05\x01view\x02\x03\x03\x03\x02\x00\x01\x03\x02\x01\x02\x03\x02\x02\x00\x03\x02\x02\x03\x03\x02\x03\x01",
            b"low 0\nhigh 2\ncases 0\nhold 0 meter\nhold 2 denoise\n",
        )
    }

    #[test]
    fn a_mangled_sheet_is_refused(rt: HostRuntime) -> Result<(), Fail> {
        prints(
            &rt,
            b"\x01\x001\x00\x06\x01meter\x05\x01gain\x08\x01denoise\x05\x01view\x03\x02\x00\x01\x03\x02\x01\x02\x03\x02\x02\x00\x03\x02\x02\x03\x03\x02\x03A",
            b"refused 7 graph 49\n",
        )
    }

    // A sheet without stages, one that is empty, and one of a kind that is neither Count nor Memory.
    #[test]
    fn small_sheets(rt: HostRuntime) -> Result<(), Fail> {
        prints(&rt, b"\x01\x00\x01\x00", b"low 0\nhigh 0\ncases 0\n")?;
        prints(&rt, b"", b"refused 1 frame 0\n")?;
        prints(&rt, b"\x01\x00\x01\x02", b"refused 3 frame 3\n")
    }
}
