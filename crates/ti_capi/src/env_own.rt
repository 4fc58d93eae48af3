//! What an environment keeps for itself: its capabilities and its own word. No thread is asked.

use crate::codes::{CQ_OK, done_code};
use crate::handle::CqEnv;
use crate::handle_lends::behind;
use ti_types::{Caps, TiError};

/// The environment's number.
#[unsafe(no_mangle)]
pub extern "C" fn cq_environment_number(env: &mut CqEnv, number: &mut u32) -> u32
    ensures { Calls (λ s n code. (n ≡ s) × (code ≡ 0) × (number.new ≡ s.env.env.0)) (number.new ≡ number.old) env.old env.new result }
{
    behind!(agent in env.held_env());
    *number = agent.number().0;
    CQ_OK
}

/// AddCapabilities (JVM TI 11): all or none.
#[unsafe(no_mangle)]
pub extern "C" fn cq_add_capabilities(env: &mut CqEnv, capabilities: u32) -> u32
    ensures { Calls (AddsBy capabilities) ⊤ env.old env.new result }
{
    behind!(agent in env.held_env());
    if capabilities > 3 {
        return TiError::NotAvailable.number();
    }
    done_code(agent.add_capabilities(Caps {
        bits: capabilities as u8,
    }))
}

/// RelinquishCapabilities (JVM TI 11).
#[unsafe(no_mangle)]
pub extern "C" fn cq_relinquish_capabilities(env: &mut CqEnv, capabilities: u32) -> u32
    ensures { Calls (RelinquishesBy capabilities) ⊤ env.old env.new result }
{
    behind!(agent in env.held_env());
    done_code(agent.relinquish_capabilities(Caps {
        bits: (capabilities & 255) as u8,
    }))
}

/// GetCapabilities (JVM TI 11).
#[unsafe(no_mangle)]
pub extern "C" fn cq_get_capabilities(env: &mut CqEnv, capabilities: &mut u32) -> u32
    ensures { Calls (λ s n code. (n ≡ s) × (code ≡ 0) × (capabilities.new ≡ s.env.state.caps.bits)) (capabilities.new ≡ capabilities.old) env.old env.new result }
{
    behind!(agent in env.held_env());
    match agent.get_capabilities() {
        Ok(caps) => {
            *capabilities = u32::from(caps.bits);
            CQ_OK
        }
        Err(_) => unreachable!(),
    }
}

/// GetPotentialCapabilities (JVM TI 11).
#[unsafe(no_mangle)]
pub extern "C" fn cq_get_potential_capabilities(env: &mut CqEnv, capabilities: &mut u32) -> u32
    ensures { Calls (λ s n code. (n ≡ s) × (code ≡ 0) × (capabilities.new ≡ s.home.service.cell.potential.bits)) (capabilities.new ≡ capabilities.old) env.old env.new result }
{
    behind!(agent in env.held_env());
    match agent.get_potential_capabilities() {
        Ok(caps) => {
            *capabilities = u32::from(caps.bits);
            CQ_OK
        }
        Err(_) => unreachable!(),
    }
}

/// GetEnvironmentLocalStorage (JVM TI 11).
#[unsafe(no_mangle)]
pub extern "C" fn cq_get_environment_local_storage(env: &mut CqEnv, word: &mut u64) -> u32
    ensures { Calls (λ s n code. (n ≡ s) × (code ≡ 0) × (word.new ≡ s.env.state.word)) (word.new ≡ word.old) env.old env.new result }
{
    behind!(agent in env.held_env());
    match agent.get_environment_local_storage() {
        Ok(own) => {
            *word = own;
            CQ_OK
        }
        Err(_) => unreachable!(),
    }
}

/// SetEnvironmentLocalStorage (JVM TI 11).
#[unsafe(no_mangle)]
pub extern "C" fn cq_set_environment_local_storage(env: &mut CqEnv, word: u64) -> u32
    ensures { Calls (λ s n code. (n.home ≡ s.home) × (n.env ≡ env_with s.env (with_word s.env.state word)) × (code ≡ 0)) ⊤ env.old env.new result }
{
    behind!(agent in env.held_env());
    done_code(agent.set_environment_local_storage(word))
}

ghost use Rattle.std.specs.Prelude.{◌≡◌, ⊤};
ghost use Rattle.ti_env.specs.Env.{with_word};
ghost use Rattle.ti_capi.specs.Calls.{AddsBy, Calls, RelinquishesBy, env_with};
