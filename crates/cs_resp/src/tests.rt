//! Worked rows: what clients send, and what limits do.
use super::*;
use std::process::Abort;
use std::test::*;

/// Four arguments, of five bytes each, of eight bytes together.
const SMALL: Limits = Limits {
    arguments: 4,
    bulk: 5,
    bytes: 8,
};

/// More than any row has.
const AMPLE: Limits = Limits {
    arguments: 100,
    bulk: 1000,
    bytes: 1000,
};

/// What bytes begin with: how many are taken and each argument behind a bar, `more`, or the text of the fault.
fn told(rt: &(impl Abort + AllocGlobal), bytes: &[u8], limits: Limits) -> Vec<u8> {
    let mut out = Vec::new(rt.alloc());
    match parse_request(rt.alloc(), bytes, limits).expect(rt, "memory") {
        Progress::Whole { request, used } => {
            let count = format!(in rt.alloc(); "{used}").expect(rt, "memory");
            out.extend_from_slice(count.as_bytes()).expect(rt, "memory");
            for word in &request {
                out.push(b'|').expect(rt, "memory");
                out.extend_from_slice(word).expect(rt, "memory");
            }
        }
        Progress::More => out.extend_from_slice(b"more").expect(rt, "memory"),
        Progress::Wrong(fault) => out
            .extend_from_slice(fault.text().as_bytes())
            .expect(rt, "memory"),
    }
    out
}

/// What redis-cli, redis-benchmark and redis-py send.
#[test]
fn clients(rt: HostRuntime) {
    let rows: [(&[u8], &[u8]); 8] = [
        (b"*1\r\n$4\r\nPING\r\n", b"14|PING"),
        (b"*2\r\n$7\r\nCOMMAND\r\n$4\r\nDOCS\r\n", b"27|COMMAND|DOCS"),
        (
            b"*3\r\n$6\r\nCONFIG\r\n$3\r\nGET\r\n$4\r\nsave\r\n",
            b"35|CONFIG|GET|save",
        ),
        (
            b"*3\r\n$3\r\nSET\r\n$16\r\nkey:__rand_int__\r\n$3\r\nVXK\r\n",
            b"45|SET|key:__rand_int__|VXK",
        ),
        (
            b"*4\r\n$6\r\nCLIENT\r\n$7\r\nSETINFO\r\n$8\r\nLIB-NAME\r\n$8\r\nredis-py\r\n",
            b"57|CLIENT|SETINFO|LIB-NAME|redis-py",
        ),
        (
            b"*2\r\n$3\r\nGET\r\n$0\r\n\r\n*1\r\n$4\r\nPING\r\n",
            b"19|GET|",
        ),
        (b"*0\r\n", b"4"),
        (b"*2\r\n$4\r\nECHO\r\n$4\r\n\r\n*$\r\n", b"24|ECHO|\r\n*$"),
    ];
    for (bytes, want) in rows {
        assert_eq!(rt; told(&rt, bytes, AMPLE).as_slice(), want);
    }
}

/// Each limit: as much as it allows, and one more.
#[test]
fn limits(rt: HostRuntime) {
    let rows: [(&[u8], &[u8]); 6] = [
        (b"*4\r\n$0\r\n\r\n$0\r\n\r\n$0\r\n\r\n$0\r\n\r\n", b"28||||"),
        (b"*5", b"ERR Protocol error: too many arguments"),
        (b"*1\r\n$5\r\nabcde\r\n", b"15|abcde"),
        (b"*1\r\n$6", b"ERR Protocol error: an argument is too long"),
        (b"*2\r\n$5\r\nabcde\r\n$3\r\nfgh\r\n", b"24|abcde|fgh"),
        (
            b"*2\r\n$5\r\nabcde\r\n$4",
            b"ERR Protocol error: the arguments are too long together",
        ),
    ];
    for (bytes, want) in rows {
        assert_eq!(rt; told(&rt, bytes, SMALL).as_slice(), want);
    }
}

/// The fault of each kind, at the byte that makes it one.
#[test]
fn faults(rt: HostRuntime) {
    let rows: [(&[u8], &[u8]); 10] = [
        (
            b"P",
            b"ERR Protocol error: expected '*', a request is an array of bulk strings",
        ),
        (b"*1\r\n*", b"ERR Protocol error: an array within a request"),
        (
            b"*1\r\n:",
            b"ERR Protocol error: expected '$', an argument is a bulk string",
        ),
        (b"*-", b"ERR Protocol error: invalid length"),
        (b"*01", b"ERR Protocol error: invalid length"),
        (b"*\r", b"ERR Protocol error: invalid length"),
        (b"*1\n", b"ERR Protocol error: invalid length"),
        (b"*1\r\r", b"ERR Protocol error: invalid length"),
        (
            b"*1\r\n$1\r\nab",
            b"ERR Protocol error: expected a line break after a bulk string",
        ),
        (
            b"*1\r\n$1\r\na\rb",
            b"ERR Protocol error: expected a line break after a bulk string",
        ),
    ];
    for (bytes, want) in rows {
        assert_eq!(rt; told(&rt, bytes, AMPLE).as_slice(), want);
    }
}

/// A request that was cut asks for more wherever the cut is.
#[test]
fn cuts(rt: HostRuntime) {
    let bytes: &[u8] = b"*3\r\n$3\r\nSET\r\n$10\r\n0123456789\r\n$0\r\n\r\n";
    for length in 0..bytes.len() {
        let (front, _) = bytes.split_at(length);
        assert_eq!(rt; told(&rt, front, AMPLE).as_slice(), b"more".as_slice());
    }
    assert_eq!(rt;
        told(&rt, bytes, AMPLE).as_slice(),
        b"36|SET|0123456789|".as_slice()
    );
}

/// Each kind of reply, and an answer to SCAN.
#[test]
fn replies(rt: HostRuntime) -> Result<(), Fail> {
    let mut out = Vec::new(rt.alloc());
    spell_simple(&mut out, b"OK")?;
    spell_error(&mut out, b"ERR unknown command 'a\r\nb'")?;
    spell_integer(&mut out, -5)?;
    spell_null(&mut out)?;
    spell_bulk(&mut out, b"\r\n")?;
    spell_array(&mut out, 2)?;
    spell_bulk(&mut out, b"0")?;
    spell_array(&mut out, 1)?;
    spell_bulk(&mut out, b"key")?;
    let want: &[u8] =
        b"+OK\r\n-ERR unknown command 'a  b'\r\n:-5\r\n$-1\r\n$2\r\n\r\n\r\n*2\r\n$1\r\n0\r\n*1\r\n$3\r\nkey\r\n";
    assert_eq!(rt; out.as_slice(), want);
    Ok(())
}
