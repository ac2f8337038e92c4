// `lineruns`: reads the four numbers of one line from standard input, and prints its runs or the refusal.
#![tactic(auto)]

use lineruns_text::program::print_runs;
use std::io;

fn main(rt: HostRuntime) -> io::Result<()> {
    print_runs(&mut rt.reader(), &mut io::writer(&rt))
}
