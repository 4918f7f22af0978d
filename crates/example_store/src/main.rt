//! How a program embeds the store: it makes one in memory, uses it and closes it, and opens it again on the same disk.
#![tactic(auto)]

use anyhow::{Result, bail};
use cs_store::{OpenOptions, PageDisk, ShardId, Store};

fn main(rt: HostRuntime) -> Result<()> {
    let mut store = OpenOptions::new(rt.alloc()).create_in_memory()?;
    use_store(&rt, &mut store)?;
    match OpenOptions::new(rt.alloc()).open(store.close().into_disk()) {
        Ok((mut store, _)) => use_again(&rt, &mut store),
        Err((refusal, _)) => bail!("no store: {refusal}"),
    }
}

/// Two commands that are made persistent, and a third one that isn't.
fn use_store<D: PageDisk, R: Print>(rt: &R, store: &mut Store<D>) -> Result<()> {
    println!(rt; "put {}", store.put(ShardId([1; 16]), b"a rope")?)?;
    println!(rt; "put {}", store.put(ShardId([2; 16]), b"a lamp")?)?;
    println!(rt; "persistent {}", store.sync()?)?;
    println!(rt; "deleted {:?}", store.delete(ShardId([1; 16]))?)?;
    Ok(())
}

/// The two are there, and the third was lost.
fn use_again<D: PageDisk, R: Print>(rt: &R, store: &mut Store<D>) -> Result<()> {
    println!(rt; "a rope: {}", store.get(ShardId([1; 16]))?.is_some())?;
    println!(rt; "shards {}", store.ids()?.len())?;
    Ok(())
}
