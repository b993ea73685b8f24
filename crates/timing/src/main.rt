//! timing: how fast a kernel is. A kernel is a module that runs without end over a new axis, or a long module that is checked, or
//! unpacked and packed, again and again.
//!
//! `timing` prints the names of the kernels, `timing NAME` runs one and prints how fast it is, and `timing NAME module` writes the
//! bytes of its module.

#![tactic(auto)]

use anyhow::{Context, bail};
use kernels::{KERNELS, Kernel, named};
use std::io::Write;
use std::{env, io};

mod code;
mod kernels;
mod rounds;
mod work;

fn print_names(rt: &impl Print) -> io::Result<()> {
    for (name, _) in KERNELS {
        println!(rt; "{name}")?;
    }
    Ok(())
}

fn main(rt: HostRuntime) -> anyhow::Result<()> {
    let mut words = env::args(&rt)?.skip(1);
    let Some(name) = words.next() else {
        print_names(&rt)?;
        return Ok(());
    };
    let kernel = named(name.as_str()).context(format_args!("there is no kernel {name}"))?;
    let module = kernel.module(rt.alloc())?;
    match words.next() {
        None => work::measure(&rt, rt.alloc(), name.as_str(), kernel, module.as_slice()),
        Some(word) if word.as_str() == "module" && words.next().is_none() => {
            io::writer(&rt).write_all(module.as_slice())?;
            Ok(())
        }
        Some(_) => bail!("after the name of a kernel stands nothing, or the one word module"),
    }
}
