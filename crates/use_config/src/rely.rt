//! What is read, and the code that relies on it where it is valid.
ghost use Rattle.std.specs.Prelude.{◌≡◌, ◌/◌};

use crate::check::Input;
use crate::config::{Config, read_config};
use anyhow::Result;
use garde::rules::pattern::regex::Regex;
use garde::{I18n, Valid};
use garde_schema::{FormI18n, ReadError, Scratch};

/// What the name of a host is like.
const NAME: &str = "^[a-z0-9-]+([.][a-z0-9-]+)*$";

/// How many connections each worker takes. A valid configuration has a worker, so nothing is
/// tested.
#[tactic(auto, unfolding(garde::specs::Fields::Known))]
pub fn share(config: &Valid<Config<'_>>) -> u16
    ensures { result ≡ config.now.server.connections / config.now.server.workers }
{
    config.server.connections / config.server.workers
}

/// Prints what a valid configuration asks for.
fn accept(rt: &HostRuntime, config: &Valid<Config<'_>>) -> Result<()> {
    let server = &config.server;
    let (host, port, workers) = (server.host.text(), server.port, server.workers);
    let most = share(config);
    println!(rt; "{host}, port {port}: {workers} workers, {most} connections each")?;
    Ok(())
}

/// The configuration. What a valid one asks for is printed.
#[derive(Clone, Copy, Drop)]
pub struct Configuration;

impl Input for Configuration {
    fn judge<H: I18n + FormI18n>(
        &mut self,
        rt: &HostRuntime,
        json: &[u8],
        h: &H,
    ) -> Result<Option<ReadError>> {
        let alloc = rt.alloc();
        let names = Regex::new(alloc, NAME)?;
        let mut scratch = Scratch::new(alloc);
        match read_config(alloc, json, &mut scratch, &names, h) {
            Ok(config) => {
                accept(rt, &config)?;
                Ok(None)
            }
            Err(error) => Ok(Some(error)),
        }
    }
}
