//! Answers from the words that were read.
ghost use Rattle.std.specs.Prelude.{◌≡◌, ◌⊎◌, ℕ, ◌^◌, ◌≤◌};
ghost use Rattle.cell_rules.specs.Words.{READY, ENDED, HALTED};
ghost use Rattle.one_shot_word.specs.Found.{state_at, stored_as, claim_found, chan_found};

use crate::answers::{Found, Place, State};
use cell_rules::{ended, halted, ready};
use chan_base::Number;

pub fn state_of(number: u64, word: u64) -> State
    ensures { result ≡ state_at number word }
{
    if word == 0 {
        State::Unmade
    } else if word / 8 == number {
        if word % 8 == 2 {
            State::Running
        } else if word % 8 == 3 {
            State::Waiting
        } else if word % 8 == 4 {
            State::Ended
        } else {
            State::Halted
        }
    } else {
        State::Reused(Number(word / 8))
    }
}

pub fn found_in_claim(word: u64) -> Found
    ensures { result ≡ claim_found word }
{
    if word % 2 == 1 {
        Found::Claimed(Number(word / 2))
    } else {
        Found::Reused(Number(word / 2))
    }
}

pub fn found_in_channel(number: u64, word: u64) -> Found
    ensures { result ≡ chan_found number word }
{
    if word % 4 == 3 {
        Found::Parked(Number(word / 4))
    } else if word / 4 == number {
        Found::Done
    } else {
        Found::Reused(Number(word / 4))
    }
}

pub fn word_of(place: Place, number: u64) -> u64
    requires { number ≤ 2 ^ 60 }
    ensures one { (result ≡ READY number) ⊎ (result ≡ ENDED number) ⊎ (result ≡ HALTED number) }
    ensures exact { result ≡ stored_as place number }
{
    match place {
        Place::Ready => ready(number),
        Place::Ended => ended(number),
        Place::Halted => halted(number),
    }
}
