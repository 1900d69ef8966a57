use crate::fixture::{Answer, label, manifest};
use std::alloc::Global;
use std::test::Fail;

#[test]
fn each_fault_of_a_manifest_is_named(rt: HostRuntime) -> Result<(), Fail> {
    let alloc = rt.alloc();
    let cases: [(&str, &str); 9] = [
        (
            "version = 1\nprograms = [\"P.cbl\"]\n",
            "refused MissingKey pivot\n",
        ),
        (
            "version = 1\npivot = 100\nprograms = [\"P.cbl\"]\n",
            "refused BadValue pivot\n",
        ),
        (
            "version = 3\npivot = 50\nprograms = [\"P.cbl\"]\n",
            "refused BadValue version\n",
        ),
        (
            "version = 2\npivot = 50\nprograms = [\"P.cbl\"]\nwindow = [\"P.YY\"]\n",
            "refused BadValue window\n",
        ),
        (
            "version = 1\npivot = 50\nprograms = [\"../P.cbl\"]\n",
            "refused BadName programs\n",
        ),
        (
            "version = 1\npivot = 50\nprograms = [\"P.cbl\"]\nmore = 1\n",
            "refused UnknownKey more\n",
        ),
        (
            "version = 1\npivot = 50\nprograms = [\"P.cbl\"]\nseeds = \"P.cbl\"\n",
            "refused NameTwice P.cbl\n",
        ),
        ("version = \n", "refused NotToml m.toml\n"),
        ("version = 1\nversion = 1\n", "refused NotToml m.toml\n"),
    ];
    for (main, line) in cases {
        let got = label(alloc, &[("m.toml", main)])?;
        assert_eq!(rt; got.printed.as_slice(), line.as_bytes());
        assert_eq!(rt; got.status, 3);
    }
    let got = label(alloc, &[("n.toml", "version = 1\n")])?;
    assert_eq!(rt;
        got.printed.as_slice(),
        b"refused Missing m.toml\n".as_slice()
    );
    assert_eq!(rt; got.status, 3);
    Ok(())
}

/// What `label` answers for that many programs, of which the manifest alone is there.
fn label_many(alloc: Global, count: usize) -> Result<Answer, Fail> {
    let mut programs = String::new(alloc);
    for i in 0..count {
        if i > 0 {
            programs.push_str(", ")?;
        }
        let name = format!(in alloc; "\"P{i}.cbl\"")?;
        programs.push_str(name.as_str())?;
    }
    let main = manifest(alloc, programs.as_str(), "")?;
    label(alloc, &[("m.toml", main.as_str())])
}

#[test]
fn a_portfolio_has_at_most_two_hundred_programs(rt: HostRuntime) -> Result<(), Fail> {
    let alloc = rt.alloc();
    let most = label_many(alloc, 200)?;
    assert_eq!(rt;
        most.printed.as_slice(),
        b"refused Missing P0.cbl\n".as_slice()
    );
    let more = label_many(alloc, 201)?;
    assert_eq!(rt;
        more.printed.as_slice(),
        b"refused BadValue programs\n".as_slice()
    );
    assert_eq!(rt; more.status, 3);
    Ok(())
}

#[test]
fn faults_of_manifests_come_in_their_order(rt: HostRuntime) -> Result<(), Fail> {
    let alloc = rt.alloc();
    // Each has the fault of its line, and that of the next one too.
    let cases: [(&str, &str); 7] = [
        ("", "refused Missing m.toml\n"),
        ("version = 3\npivot\n", "refused NotToml m.toml\n"),
        (
            "version = 3\nprograms = [\"../P.cbl\"]\n",
            "refused MissingKey pivot\n",
        ),
        (
            "version = 3\npivot = 50\nprograms = [\"../P.cbl\"]\n",
            "refused BadValue version\n",
        ),
        (
            "version = 1\npivot = 50\nprograms = [\"../P.cbl\"]\nmore = 1\n",
            "refused BadName programs\n",
        ),
        (
            "version = 1\npivot = 50\nprograms = [\"P.cbl\"]\nseeds = \"P.cbl\"\nmore = 1\n",
            "refused UnknownKey more\n",
        ),
        (
            "version = 1\npivot = 50\nprograms = [\"P.cbl\"]\nseeds = \"P.cbl\"\n",
            "refused NameTwice P.cbl\n",
        ),
    ];
    for (main, line) in cases {
        let got = label(alloc, &[("m.toml", main)])?;
        assert_eq!(rt; got.printed.as_slice(), line.as_bytes());
        assert_eq!(rt; got.status, 3);
    }
    Ok(())
}
