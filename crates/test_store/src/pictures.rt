//! Pictures of worked documents.
use cs_check::from_document;
use cs_picture::draw;
use std::process::Abort;
use std::test::Fail;

/// Asserts the picture of a document, line by line.
fn pictures(rt: &(impl Abort + AllocGlobal), text: &str, wanted: &str) -> Result<(), Fail> {
    let document = match from_document(rt.alloc(), text) {
        Ok(document) => document,
        Err(fault) => panic!(rt; "{fault}"),
    };
    let mut picture = Vec::new(rt.alloc());
    draw(&mut picture, &document)?;
    assert!(rt; picture.as_slice() == wanted.as_bytes());
    Ok(())
}

// One put: the superblock's version 2 is no round's, since version 3 stands for it.
#[test]
fn one_put(rt: HostRuntime) -> Result<(), Fail> {
    pictures(&rt, ONE_PUT, ONE_PUT_PICTURE)
}

const ONE_PUT: &str =
    "{\"chain\":[\"w31\",\"s3\",\"r22\"],\"elements\":[{\"e\":\"w31\",\"needs\":[]},{\"e\":\"s2\",\"needs\":[\"w31\"]},{\"e\":\"w32\",\"needs\":[]},{\"e\":\"s3\",\"needs\":[\"w31\",\"w32\"]},{\"e\":\"r22\",\"needs\":[\"s3\"]}],\"families\":[\"s\",\"r\"],\"format\":1,\"persistent\":[1,21],\"rounds\":[[\"w31\",\"w32\"],[\"s3\"],[\"r22\"]],\"target\":[\"w31\",\"w32\",\"s3\",\"r22\"]}";

const ONE_PUT_PICTURE: &str = "strict digraph plan {
  rankdir=RL;
  node [shape=box, style=solid];
  subgraph cluster_1 {
    label=\"round 1\";
    w31;
    w32;
  }
  subgraph cluster_2 {
    label=\"round 2\";
    s3;
  }
  subgraph cluster_3 {
    label=\"round 3\";
    r22;
  }
  node [style=dashed];
  w31;
  s2;
  w32;
  s3;
  r22;
  s2 -> w31;
  s3 -> w31;
  s3 -> w32;
  r22 -> s3;
  w31 [peripheries=2];
  w32 [peripheries=2];
  s3 [peripheries=2];
  r22 [peripheries=2];
  w31 [penwidth=2];
  s3 [penwidth=2];
  r22 [penwidth=2];
  s3 -> w31 [penwidth=2];
  r22 -> s3 [penwidth=2];
}
";

// A target that needs a part of what waits, and a chain through a version that no round writes.
#[test]
fn a_part(rt: HostRuntime) -> Result<(), Fail> {
    pictures(&rt, A_PART, A_PART_PICTURE)
}

const A_PART: &str =
    "{\"chain\":[\"w37\",\"a5\",\"w38\"],\"elements\":[{\"e\":\"w37\",\"needs\":[]},{\"e\":\"a5\",\"needs\":[\"w37\"]},{\"e\":\"a6\",\"needs\":[\"w37\"]},{\"e\":\"w38\",\"needs\":[\"a6\"]},{\"e\":\"w39\",\"needs\":[\"w38\"]}],\"families\":[\"a\",\"b\"],\"format\":1,\"persistent\":[4,9],\"rounds\":[[\"w37\"],[\"a6\"],[\"w38\"]],\"target\":[\"w38\"]}";

const A_PART_PICTURE: &str = "strict digraph plan {
  rankdir=RL;
  node [shape=box, style=solid];
  subgraph cluster_1 {
    label=\"round 1\";
    w37;
  }
  subgraph cluster_2 {
    label=\"round 2\";
    a6;
  }
  subgraph cluster_3 {
    label=\"round 3\";
    w38;
  }
  node [style=dashed];
  w37;
  a5;
  a6;
  w38;
  w39;
  a5 -> w37;
  a6 -> w37;
  w38 -> a6;
  w39 -> w38;
  w38 [peripheries=2];
  w37 [penwidth=2];
  a5 [penwidth=2];
  w38 [penwidth=2];
  a5 -> w37 [penwidth=2];
  w38 -> a5 [penwidth=2];
}
";

// Nothing waits.
#[test]
fn nothing(rt: HostRuntime) -> Result<(), Fail> {
    pictures(&rt, NOTHING, NOTHING_PICTURE)
}

const NOTHING: &str =
    "{\"chain\":[],\"elements\":[],\"families\":[\"s\"],\"format\":1,\"persistent\":[1],\"rounds\":[],\"target\":[]}";

const NOTHING_PICTURE: &str = "strict digraph plan {
  rankdir=RL;
  node [shape=box, style=solid];
  node [style=dashed];
}
";
