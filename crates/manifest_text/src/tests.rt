use super::*;
use std::alloc::Global;
use std::test::Fail;

/// Whether the manifest becomes this text.
fn becomes(alloc: Global, text: &str, converted: &str) -> Result<bool, Fail> {
    let got = converted_manifest(alloc, text.as_bytes())?;
    Ok(got.items() == converted.as_bytes())
}

#[test]
fn seeds_and_windows_are_left_out(rt: HostRuntime) -> Result<(), Fail> {
    let alloc = rt.alloc();
    assert!(rt;
        becomes(
            alloc,
            "version = 1\npivot = 50\nprograms = [\"A.cbl\"]\nseeds = \"s.csv\"\nwindow = [\"A.YY\"]\n",
            "pivot = 50\nprograms = [\"A.cbl\"]\nversion = 2\n"
        )?
    );
    assert!(rt;
        becomes(
            alloc,
            "version = 2 # of groups\npivot = 50\nprograms = ['A.cbl']\nwindow = [{ pivot = 1, items = [] }]\n[files]\nE = \"e\"\n",
            "pivot = 50\nprograms = [\"A.cbl\"]\nversion = 2\n\n[files]\nE = \"e\"\n"
        )?
    );
    Ok(())
}

#[test]
fn what_is_no_document_has_no_manifest(rt: HostRuntime) {
    assert!(rt; converted_manifest(rt.alloc(), b"version").is_err());
    assert!(rt; converted_manifest(rt.alloc(), b"\xff").is_err());
}
