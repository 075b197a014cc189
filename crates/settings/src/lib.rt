// Document 01, 'Settings': 32 flags, 13 special characters, MIN and TIME; the defaults; which settings are refused.

#![tactic(auto)]

ghost use Rattle.std.specs.Prelude.{◌≡◌, ◌<◌, ◌/◌, ◌%◌, eqb, not};
ghost use Rattle.rules.specs.Settings.{settings_of, «defaults», «characters», «is», elem, enabled_of, distinct, «acceptable»};
ghost use Rattle.rules.specs.Trace.{bit_of};

use rules::Settings;

// 'Flags by bit, 0 to 31'.
pub const IGNBRK: u32 = 1;

pub const BRKINT: u32 = 2;

pub const IGNPAR: u32 = 4;

pub const PARMRK: u32 = 8;

pub const INPCK: u32 = 16;

pub const ISTRIP: u32 = 32;

pub const INLCR: u32 = 64;

pub const IGNCR: u32 = 128;

pub const ICRNL: u32 = 256;

pub const IXON: u32 = 512;

pub const IXANY: u32 = 1024;

pub const IMAXBEL: u32 = 2048;

pub const OPOST: u32 = 4096;

pub const ONLCR: u32 = 8192;

pub const OCRNL: u32 = 16384;

pub const TAB3: u32 = 32768;

pub const ONOEOT: u32 = 65536;

pub const ONOCR: u32 = 131072;

pub const ONLRET: u32 = 262144;

pub const CLOCAL: u32 = 524288;

pub const ECHO: u32 = 1048576;

pub const ECHOE: u32 = 2097152;

pub const ECHOK: u32 = 4194304;

pub const ECHOKE: u32 = 8388608;

pub const ECHONL: u32 = 16777216;

pub const ECHOCTL: u32 = 33554432;

pub const ISIG: u32 = 67108864;

pub const ICANON: u32 = 134217728;

pub const ALTWERASE: u32 = 268435456;

pub const IEXTEN: u32 = 536870912;

pub const TOSTOP: u32 = 1073741824;

pub const NOFLSH: u32 = 2147483648;

// the flag is set in flags
fn set_in(flags: u32, flag: u32) -> bool
    requires { 0 < flag }
    ensures { result ≡ eqb (flags / flag % 2) 1 }
{
    flags / flag % 2 == 1
}

// The settings that 32 flags and 15 values mean.
pub fn settings_of(flags: u32, values: [u8; 15]) -> Settings
    ensures { result ≡ settings_of (bit_of flags) values }
{
    Settings {
        ignbrk: set_in(flags, IGNBRK),
        brkint: set_in(flags, BRKINT),
        ignpar: set_in(flags, IGNPAR),
        parmrk: set_in(flags, PARMRK),
        inpck: set_in(flags, INPCK),
        istrip: set_in(flags, ISTRIP),
        inlcr: set_in(flags, INLCR),
        igncr: set_in(flags, IGNCR),
        icrnl: set_in(flags, ICRNL),
        ixon: set_in(flags, IXON),
        ixany: set_in(flags, IXANY),
        imaxbel: set_in(flags, IMAXBEL),
        opost: set_in(flags, OPOST),
        onlcr: set_in(flags, ONLCR),
        ocrnl: set_in(flags, OCRNL),
        tab3: set_in(flags, TAB3),
        onoeot: set_in(flags, ONOEOT),
        onocr: set_in(flags, ONOCR),
        onlret: set_in(flags, ONLRET),
        clocal: set_in(flags, CLOCAL),
        echo: set_in(flags, ECHO),
        echoe: set_in(flags, ECHOE),
        echok: set_in(flags, ECHOK),
        echoke: set_in(flags, ECHOKE),
        echonl: set_in(flags, ECHONL),
        echoctl: set_in(flags, ECHOCTL),
        isig: set_in(flags, ISIG),
        icanon: set_in(flags, ICANON),
        altwerase: set_in(flags, ALTWERASE),
        iexten: set_in(flags, IEXTEN),
        tostop: set_in(flags, TOSTOP),
        noflsh: set_in(flags, NOFLSH),
        eof: values[0],
        eol: values[1],
        eol2: values[2],
        erase: values[3],
        werase: values[4],
        kill: values[5],
        reprint: values[6],
        intr: values[7],
        quit: values[8],
        susp: values[9],
        start: values[10],
        stop: values[11],
        lnext: values[12],
        min: values[13],
        time: values[14],
    }
}

// 'The value 255 disables a special character.'
pub const DISABLED: u8 = 255;

// EOF, EOL, EOL2, ERASE, WERASE, KILL, REPRINT, INTR, QUIT, SUSP, START, STOP, LNEXT; then MIN, TIME.
pub const DEFAULTS: [u8; 15] = [
    4, DISABLED, DISABLED, 127, 23, 21, 18, 3, 28, 26, 17, 19, 22, 1, 0,
];

// 'Flags set by default'.
pub const DEFAULT_FLAGS: u32 = BRKINT
    | ICRNL
    | IXON
    | IMAXBEL
    | OPOST
    | ONLCR
    | ECHO
    | ECHOE
    | ECHOKE
    | ECHOCTL
    | ISIG
    | ICANON
    | IEXTEN;

// The settings of a fresh port.
pub fn defaults() -> Settings
    ensures { result ≡ «defaults» }
{
    settings_of(DEFAULT_FLAGS, DEFAULTS)
}

// The special characters, in their order.
fn characters(x: Settings) -> [u8; 13]
    ensures { result ≡ «characters» x }
{
    [
        x.eof, x.eol, x.eol2, x.erase, x.werase, x.kill, x.reprint, x.intr, x.quit, x.susp,
        x.start, x.stop, x.lnext,
    ]
}

// b is the special character, and that is enabled.
pub fn is(b: u8, special: u8) -> bool
    ensures { result ≡ «is» b special }
{
    b == special && special != DISABLED
}

// b is an enabled special character.
fn has(specials: &[u8], b: u8) -> bool
    ensures { result ≡ elem b (enabled_of specials.now) }
{
    specials.iter().any(|c| is(b, *c))
}

// Two enabled special characters are equal.
fn paired(specials: &[u8]) -> bool
    ensures { result ≡ not (distinct (enabled_of specials.now)) }
{
    let mut rest = specials;
    while let Some((b, others)) = rest.split_first() {
        if has(others, *b) {
            return true;
        }
        rest = others;
    }
    false
}

// Not 'settings where two enabled special characters are equal, or one is 10 or 13'.
pub fn acceptable(x: Settings) -> bool
    ensures { result ≡ «acceptable» x }
{
    let specials = characters(x);
    !paired(&specials) && !has(&specials, 10) && !has(&specials, 13)
}
