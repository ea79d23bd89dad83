// The coins of a run, by the options of its words.

ghost use Rattle.std.specs.Prelude.{◌≡◌, Some, IfOk, length};
ghost use Rattle.spd_command.specs.declared.settings.Settings.{Settings};
ghost use Rattle.spd_top.specs.Requests.{settings_asked};
ghost use Rattle.spd_top.specs.Coins.{AreNewCoins};

use crate::words::Words;
use spd_command::{Command, CommandError, STANDARD, Settings};
use spd_grow::PcgCoin;
use std::alloc::{AllocError, Global};

/// How many coins a run is given: one for each worker that it may have.
const COINS: u32 = 64;

/// Coins for workers: that of worker k begins with the settings' seed on stream k, and falls heads in as
/// many of 65,536 cases as they say.
#[tactic(auto, using(crate::proofs::NewCoins::one_coin_more))]
fn new_coins(alloc: Global, settings: Settings) -> Result<Vec<PcgCoin>, AllocError>
    ensures count { IfOk result (λ coins. length coins.items ≡ 64) }
    ensures each { IfOk result (λ coins. AreNewCoins settings coins.items) }
{
    let mut coins = Vec::new(alloc);
    for worker in 0..COINS {
        coins.push(PcgCoin::new(settings.seed, worker, settings.grow))?;
    }
    Ok(coins)
}

/// The settings that words ask for; where they ask for no workers, those of a run without options.
fn settings_for(alloc: Global, words: &Words) -> Result<Settings, AllocError>
    ensures { (settings : Settings) → settings_asked words.now ≡ Some settings →
        IfOk result (λ found. found ≡ settings) }
{
    match words.command(alloc) {
        Ok(Command::Run { settings, .. }) => Ok(settings),
        Ok(Command::Job { settings, .. }) => Ok(settings),
        Err(CommandError::NoMemory) => Err(AllocError),
        Ok(_) => Ok(STANDARD),
        Err(CommandError::Refused) => Ok(STANDARD),
    }
}

/// The coins of the workers that words ask for; where they ask for none, those of a run without options.
pub(crate) fn coins_for(alloc: Global, words: &Words) -> Result<Vec<PcgCoin>, AllocError>
    ensures count { IfOk result (λ coins. length coins.items ≡ 64) }
    ensures each { (settings : Settings) → settings_asked words.now ≡ Some settings →
        IfOk result (λ coins. AreNewCoins settings coins.items) }
{
    let settings = settings_for(alloc, words)?;
    let coins = new_coins(alloc, settings)?;
    Ok(coins)
}
