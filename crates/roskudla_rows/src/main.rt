// Reads rule.txt and tables.bin in the folder it is run in, and prints the rows of table 1 that the rule admits, or the refusal.
#![tactic(auto)]

ghost use Rattle.std.specs.Prelude.{IfOk};
ghost use Rattle.io.specs.Counts.{IsPrefixLen};

use admission::{OUTPUT, READ_OF_TABLES, READ_OF_TEXT};
use std::fs::File;
use std::io;
use std::io::{Read, Write};

// Reads until buf is full or the file ends; how many bytes were read.
fn read_all(file: &mut File, buf: &mut [u8]) -> io::Result<usize>
    ensures { IfOk result (λ n. IsPrefixLen n buf.new) }
{
    let mut n = 0;
    while n < buf.len() {
        match file.read(&mut buf[n..])? {
            0 => break,
            more => n += more,
        }
    }
    Ok(n)
}

// The bytes of a file at the start of buf, as far as they fit; how many. A file that is missing, or cannot be read, counts as empty: what was read in part
// must not be taken for the whole.
fn read_file(rt: &HostRuntime, name: &str, buf: &mut [u8]) -> usize
    ensures { IsPrefixLen result buf.new }
{
    let Ok(mut file) = File::open(rt, name) else {
        return 0;
    };
    read_all(&mut file, buf).unwrap_or(0)
}

fn main(rt: HostRuntime) -> io::Result<()> {
    let mut text = [0u8; READ_OF_TEXT];
    let mut tables = [0u8; READ_OF_TABLES];
    let mut out = [0u8; OUTPUT];
    let text_length = read_file(&rt, "rule.txt", &mut text);
    let tables_length = read_file(&rt, "tables.bin", &mut tables);
    let n = admission::print_files(&text, text_length, &tables, tables_length, &mut out);
    if let Err(error) = rt.stdout().write_all(&out[..n]) {
        let _ = eprintln!(rt; "standard output: {error}");
    }
    Ok(())
}
