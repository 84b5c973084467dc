//! Scripts that are equal, places aside, and such as are not.

use pl_syntax::{Script, parse};
use std::test::Fail;

// The script of `pipeline 1;`, a line end and these bytes.
fn script_of(rt: &HostRuntime, text: &[u8]) -> Result<Script, Fail> {
    let alloc = rt.alloc();
    let mut bytes = Vec::new(alloc);
    bytes.extend_from_slice(b"pipeline 1;\n")?;
    bytes.extend_from_slice(text)?;
    Ok(parse(alloc, &bytes)?)
}

#[test]
fn compares_scripts(rt: HostRuntime) -> Result<(), Fail> {
    for (text, other, want) in [
        (
            b"screen (a);".as_slice(),
            b"\n screen a ;# end".as_slice(),
            true,
        ),
        (b"screen a - b - c;", b"screen (a-b)-c;", true),
        (b"screen a - b - c;", b"screen a - (b - c);", false),
        (
            b"screen f(x=1.50, \"s\");",
            b"screen f( x = 1.5,\"s\" );",
            true,
        ),
        (b"screen f(x=1);", b"screen f(y=1);", false),
        (b"screen f(x=1);", b"screen f(1);", false),
        (b"screen f(1);", b"screen f(1, 1);", false),
        (b"screen f;", b"screen f();", false),
        (b"screen a.f;", b"screen a.f();", false),
        (b"screen \"f\";", b"screen f;", false),
        (b"let a = 1;", b"column a = 1;", false),
        (b"let a = 1;", b"let b = 1;", false),
        (b"screen a; screen b;", b"screen b; screen a;", false),
        (b"screen a;", b"screen a; screen a;", false),
    ] {
        assert_eq!(rt; script_of(&rt, text)? == script_of(&rt, other)?, want);
    }
    Ok(())
}
