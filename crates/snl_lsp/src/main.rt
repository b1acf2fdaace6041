//! The language server: a client's messages come on standard input, the answers go to standard
//! output. The status is 0 where `exit` came after `shutdown`, 1 where it came without or the input
//! ended, and 2 at a fault, which the program names on standard error.
#![tactic(auto)]

mod server;

use server::serve;
use snl_script::Watched;
use snl_turns::status_code;
use std::process::ExitCode;

fn main(rt: HostRuntime) -> ExitCode {
    let mut input = Watched::new(rt.stdin());
    let mut out = Watched::new(rt.stdout());
    let end = serve(rt.alloc(), &mut input, &mut out);
    if let Err(fault) = &end {
        let _ = eprintln!(rt; "snl_lsp: {fault}");
    }
    ExitCode::from(status_code(&end))
}
