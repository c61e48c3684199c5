//! What the words say: a state with a whole number.
ghost use Rattle.std.specs.Prelude.{◌≡◌, ℕ, ◌+◌, ◌*◌, ◌^◌, ◌≤◌};
ghost use Rattle.cell_rules.specs.Words.{READY, RUNNING, WAITING, ENDED, HALTED, FREE, BY, EMPTY, FULL, DONE, PARKED};

pub fn ready(number: u64) -> u64
    requires { number ≤ 2 ^ 60 }
    ensures { result ≡ READY number }
{
    8 * number + 1
}

pub fn running(number: u64) -> u64
    requires { number ≤ 2 ^ 60 }
    ensures { result ≡ RUNNING number }
{
    8 * number + 2
}

pub fn waiting(number: u64) -> u64
    requires { number ≤ 2 ^ 60 }
    ensures { result ≡ WAITING number }
{
    8 * number + 3
}

pub fn ended(number: u64) -> u64
    requires { number ≤ 2 ^ 60 }
    ensures { result ≡ ENDED number }
{
    8 * number + 4
}

pub fn halted(number: u64) -> u64
    requires { number ≤ 2 ^ 60 }
    ensures { result ≡ HALTED number }
{
    8 * number + 5
}

pub fn free(number: u64) -> u64
    requires { number ≤ 2 ^ 60 }
    ensures { result ≡ FREE number }
{
    2 * number
}

pub fn claimed(number: u64) -> u64
    requires { number ≤ 2 ^ 60 }
    ensures { result ≡ BY number }
{
    2 * number + 1
}

pub fn empty(number: u64) -> u64
    requires { number ≤ 2 ^ 60 }
    ensures { result ≡ EMPTY number }
{
    4 * number
}

pub fn full(number: u64) -> u64
    requires { number ≤ 2 ^ 60 }
    ensures { result ≡ FULL number }
{
    4 * number + 1
}

pub fn done(number: u64) -> u64
    requires { number ≤ 2 ^ 60 }
    ensures { result ≡ DONE number }
{
    4 * number + 2
}

pub fn parked(number: u64) -> u64
    requires { number ≤ 2 ^ 60 }
    ensures { result ≡ PARKED number }
{
    4 * number + 3
}
