//! Reading a configuration.

ghost use Rattle.std.specs.Prelude.{◌≡◌, IfErr, IfOk};
ghost use Rattle.df_config.specs.ConfigFile.{IsConfigFile, IsRightRefusal};
ghost use Rattle.df_config.specs.ConfigForm.{IsConfig};

use crate::config::Config;
use crate::fields::{array_at, integer_at, natural, size};
use crate::form::is_config;
use crate::pair::PairRows;
use crate::tables::{pairs_of, traders_of};
use crate::trader::TraderRows;
use df_memory::NoMemory;
use std::alloc::Global;
use std::error::Error;
use std::fmt;
use toml::Table;

/// Why a configuration isn't read.
#[derive(Debug, Drop)]
pub enum ConfigRefused {
    /// The text is no TOML, or its table isn't in form.
    BadConfig,
    NoMemory,
}

impl fmt::Display for ConfigRefused {
    fn fmt<W: fmt::Write>(&self, f: &mut fmt::Formatter<W>) -> fmt::Result {
        match self {
            ConfigRefused::BadConfig => f.write_str("the configuration isn't in form"),
            ConfigRefused::NoMemory => f.write_str("out of memory"),
        }
    }
}

impl Error for ConfigRefused {}

impl From<NoMemory> for ConfigRefused {
    ghost use Rattle.std.specs.Prelude.{◌≡◌};
    ghost use Rattle.df_config.specs.declared.read.ConfigRefused.TheVariants as refused;

    ghost from_gives = { λ _ r. r ≡ refused.NoMemory };

    fn from(_error: NoMemory) -> ConfigRefused {
        ConfigRefused::NoMemory
    }
}

/// The configuration of a file, which is TOML 1.1.
pub fn read_config(alloc: Global, bytes: &[u8]) -> Result<Config, ConfigRefused>
    ensures read { IfOk result (IsConfigFile bytes.now) }
    ensures in_form { IfOk result IsConfig }
    ensures refused { IfErr result (IsRightRefusal bytes.now) }
{
    let table = match toml::table_from_slice(alloc, bytes) {
        Ok(table) => table,
        Err(error) if error.is_memory() => return Err(ConfigRefused::NoMemory),
        Err(_) => return Err(ConfigRefused::BadConfig),
    };
    match config_of(alloc, &table)? {
        Some(config) if is_config(&config) => Ok(config),
        _ => Err(ConfigRefused::BadConfig),
    }
}

ghost use Rattle.std.specs.Prelude.{codes};
ghost use Rattle.toml.specs.View.{table_view};
ghost use Rattle.df_config.specs.ConfigTable.{config_of, pairs_at, traders_at};

fn config_of(alloc: Global, table: &Table) -> Result<Option<Config>, NoMemory>
    ensures { IfOk result (λ c. c ≡ config_of (table_view table.now)) }
{
    if size(table) != 4 {
        return Ok(None);
    }
    let max_steps = natural(integer_at(table, "max_steps"));
    let window = natural(integer_at(table, "window"));
    let (Some(max_steps), Some(window)) = (max_steps, window) else {
        return Ok(None);
    };
    let Some(pairs) = pairs_at(alloc, table)? else {
        return Ok(None);
    };
    let Some(traders) = traders_at(alloc, table)? else {
        return Ok(None);
    };
    Ok(Some(Config {
        max_steps: u64::from(max_steps),
        pairs,
        traders,
        window,
    }))
}

fn pairs_at(alloc: Global, table: &Table) -> Result<Option<PairRows>, NoMemory>
    ensures { IfOk result (λ r. r ≡ pairs_at (codes "pair") (table_view table.now)) }
{
    match array_at(table, "pair") {
        Some(values) => pairs_of(alloc, values),
        None => Ok(None),
    }
}

fn traders_at(alloc: Global, table: &Table) -> Result<Option<TraderRows>, NoMemory>
    ensures { IfOk result (λ r. r ≡ traders_at (codes "trader") (table_view table.now)) }
{
    match array_at(table, "trader") {
        Some(values) => traders_of(alloc, values),
        None => Ok(None),
    }
}
