// What is asked for on the command line.
use anyhow::Context;
use std::env;

#[derive(Drop)]
pub(crate) struct Order {
    pub(crate) book: String,
    pub(crate) shift: i32,
    pub(crate) loading: u32,
    pub(crate) copy: String,
}

pub(crate) fn read_order(rt: &HostRuntime) -> anyhow::Result<Order> {
    let mut words = env::args(rt)?;
    let _program = words.next();
    let book = words
        .next()
        .context("usage: dotselm BOOK SHIFT LOADING COPY")?;
    let shift = words.next().context("no shift")?;
    let loading = words.next().context("no loading")?;
    let copy = words.next().context("no file to write")?;
    Ok(Order {
        book,
        shift: shift.as_str().parse::<i32>()?,
        loading: loading.as_str().parse::<u32>()?,
        copy,
    })
}
