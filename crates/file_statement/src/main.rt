// The file statement program: a day file on standard input, its statements on standard output.

#![tactic(auto)]

use anyhow::anyhow;
use dayfile::{Printed, print};
use std::env;
use std::io::{Read, Write};

// One byte more than a file may have, which is enough to refuse it.
const KEPT: u64 = 65_536;

fn print_usage(rt: &HostRuntime) -> anyhow::Result<()> {
    eprintln!(rt; "usage: file_statement < FILE")?;
    eprintln!(rt; "Reads a day file on standard input: the calls of one market day, as records.")?;
    eprintln!(rt;
        "Prints the statements of its 96 quarter hours and the total line; of a refused"
    )?;
    eprintln!(rt; "file one line, 'X place number', and then it ends with status 1.")?;
    eprintln!(rt;
        "docs/FORMAT.md describes the records and the lines, docs/REFUSALS.md the numbers."
    )?;
    Ok(())
}

fn read_input(rt: &HostRuntime) -> anyhow::Result<Vec<u8>> {
    let mut bytes = Vec::new(rt.alloc());
    rt.stdin().take(KEPT).read_to_end(&mut bytes)?;
    Ok(bytes)
}

// Prints what the file on standard input gives, and fails where it is refused.
fn print_file(rt: &HostRuntime) -> anyhow::Result<()> {
    let bytes = read_input(rt)?;
    match print(rt.alloc(), bytes.as_slice())? {
        Printed::Statements(text) => {
            rt.stdout().write_all(text.as_slice())?;
            Ok(())
        }
        Printed::Refusal(line) => {
            rt.stdout().write_all(line.as_slice())?;
            Err(anyhow!("refused"))
        }
    }
}

fn main(rt: HostRuntime) -> anyhow::Result<()> {
    let mut args = env::args(&rt)?;
    let _name = args.next();
    let Some(word) = args.next() else {
        return print_file(&rt);
    };
    print_usage(&rt)?;
    match word.as_str() {
        "--help" | "-h" => Ok(()),
        _ => Err(anyhow!("refused")),
    }
}
