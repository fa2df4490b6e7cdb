//! The arguments of the programs.
ghost use Rattle.std.specs.Prelude.{◌≡◌, ◌≢◌, ◌⊎◌, ℕ, ◌≤◌, false, List, [], ◌∷◌, IsTrue, IfOk, IfErr, IfSome, IsNone, Err, map, decimal};
ghost use Rattle.std.specs.Bool.{OnTrue, OnFalse};
ghost use Rattle.dns_spec.specs.Names.{Octets};
ghost use Rattle.dns_spec.specs.Report.{Options};
ghost use Rattle.dns_spec.specs.CommandWords.{is_dashed, ZoneWords, EndWords, AreOptions, AskToCheck, AskToServe, AskAtSocket, ServiceAsked, by_turns, Transport, transport_word};
ghost use Rattle.clap.specs.Walk.{rule_of};
ghost use Rattle.clap.specs.Simple.{app_of};
ghost use Rattle.dns_tools.specs.Checked.{options_of};
ghost use Rattle.dns_tools.specs.Arguments.{is_argument_fault, IsRefusal, service_of, transport_of, limit_words, IsOrigin, IsNoOrigin, IsService, IsCheckCall, IsServeCall, IsSocketCall, HasBadOrigin, AskNothing};
ghost use Rattle.dns_tools.specs.ClapCommands.{option_rule, bare_app, once_app, check_app};

use crate::check::Flags;
use crate::stop::FaultText;
use clap::{Arg, ArgAction, Command};
use dns_answer::Limit;
use dns_name::Name;
use dns_rdata::read_number;
use std::alloc::{AllocError, Global};
use std::convert::AsStr;

const QUIET: &str = "quiet";

const PRINT: &str = "print";

const QUIET_OPTION: &str = "--quiet";

const PRINT_OPTION: &str = "--print";

const ONCE: &str = "once";

const UDP: &str = "udp";

const TCP: &str = "tcp";

const TCP_OPTION: &str = "--tcp";

// The most turns that a server takes.
const MOST_TURNS: u32 = 1_000_000;

/// How `zoneserve` is to serve.
#[derive(Clone, Copy, Debug, PartialEq, Eq)]
pub enum Service<'a> {
    /// Answer each line of standard input with a line on standard output; replies are as long as
    /// the transport allows.
    Once(Limit),
    /// Handle `turns` datagrams at an address.
    Udp {
        /// The address, not parsed yet.
        address: &'a str,
        /// The number of turns, 1 to 1,000,000.
        turns: u32,
    },
    /// Handle `turns` connections at an address, one after another.
    Tcp {
        /// The address, not parsed yet.
        address: &'a str,
        /// The number of turns, 1 to 1,000,000.
        turns: u32,
    },
}

/// The parsed arguments of `zoneserve`.
#[derive(Drop)]
pub struct ServeWords<'a> {
    /// How it serves.
    pub service: Service<'a>,
    /// The zone's origin, in lower case.
    pub origin: Name,
    /// The path of the zone's file.
    pub file: &'a str,
}

/// The parsed arguments of `zonecheck [--quiet] [--print] ORIGIN FILE`.
#[derive(Drop)]
pub struct CheckWords<'a> {
    /// What is written.
    pub flags: Flags,
    /// The zone's origin, in lower case.
    pub origin: Name,
    /// The path of the zone's file.
    pub file: &'a str,
}

/// The parsed arguments of `zonesocket udp|tcp TURNS ORIGIN FILE`.
#[derive(Drop)]
pub struct SocketWords<'a> {
    /// The transport of the given socket.
    pub transport: Limit,
    /// The number of turns, 1 to 1,000,000.
    pub turns: u32,
    /// The zone's origin, in lower case.
    pub origin: Name,
    /// The path of the zone's file.
    pub file: &'a str,
}

/// Parses the arguments after the program's own name: `once [--tcp] ORIGIN FILE`, or
/// `udp|tcp ADDR TURNS ORIGIN FILE`. ORIGIN is a name relative to the root, and TURNS a number from
/// 1 to 1,000,000. ADDR is not parsed yet.
///
/// Fails with `usage` if the arguments are not of this form, or ORIGIN or FILE begins with `-`;
/// else with `bad origin` if ORIGIN is not a name; and with `no memory` if allocation fails. There
/// are no other options, not even for help or the version.
pub fn serve_words<'a, S: AsStr>(alloc: Global, words: &'a [S]) -> Result<ServeWords<'a>, FaultText>
    ensures asked { IfOk result (IsServeCall (map S.text words.entry.now)) }
    ensures origin { result ≡ Err FaultText.BadOrigin
        → HasBadOrigin (AskToServe (map S.text words.entry.now)) }
    ensures usage { result ≡ Err FaultText.Usage
        → AskNothing (AskToServe (map S.text words.entry.now)) }
    ensures fault { IfErr result (λ fault. IsTrue (is_argument_fault fault)) }
{
    let Some((front, origin, file)) = zone_words(words) else {
        return Err(FaultText::Usage);
    };
    Ok(ServeWords {
        service: given_service(alloc, front)?,
        origin: given_origin(origin)?,
        file,
    })
}

/// Parses the arguments after the program's own name: `--quiet` and `--print`, in either order and
/// each at most once, then ORIGIN, a name relative to the root, and FILE.
///
/// Fails with `usage` if the arguments are not of this form, or ORIGIN or FILE begins with `-`;
/// else with `bad origin` if ORIGIN is not a name; and with `no memory` if allocation fails. There
/// are no other options, not even for help or the version.
pub fn check_words<'a, S: AsStr>(alloc: Global, words: &'a [S]) -> Result<CheckWords<'a>, FaultText>
    ensures asked { IfOk result (IsCheckCall (map S.text words.entry.now)) }
    ensures origin { result ≡ Err FaultText.BadOrigin
        → HasBadOrigin (AskToCheck (map S.text words.entry.now)) }
    ensures usage { result ≡ Err FaultText.Usage
        → AskNothing (AskToCheck (map S.text words.entry.now)) }
    ensures fault { IfErr result (λ fault. IsTrue (is_argument_fault fault)) }
{
    let Some((options, origin, file)) = zone_words(words) else {
        return Err(FaultText::Usage);
    };
    Ok(CheckWords {
        flags: given_flags(alloc, options)?,
        origin: given_origin(origin)?,
        file,
    })
}

/// Parses the arguments after the program's own name: `udp` or `tcp`, TURNS, a number from 1 to
/// 1,000,000, ORIGIN, a name relative to the root, and FILE.
///
/// Fails with `usage` if and only if the arguments are not of this form, or ORIGIN or FILE begins
/// with `-`; else with `bad origin` if ORIGIN is not a name.
pub fn socket_words<'a, S: AsStr>(words: &'a [S]) -> Result<SocketWords<'a>, FaultText>
    ensures asked { IfOk result (IsSocketCall (map S.text words.entry.now)) }
    ensures origin { result ≡ Err FaultText.BadOrigin
        → HasBadOrigin (AskAtSocket (map S.text words.entry.now)) }
    ensures usage { result ≡ Err FaultText.Usage
        → AskNothing (AskAtSocket (map S.text words.entry.now)) }
    ensures fault { IfErr result
        (λ fault. (fault ≡ FaultText.Usage) ⊎ (fault ≡ FaultText.BadOrigin)) }
{
    let Some((front, origin, file)) = zone_words(words) else {
        return Err(FaultText::Usage);
    };
    let Some((transport, turns)) = transport_and_turns(front) else {
        return Err(FaultText::Usage);
    };
    Ok(SocketWords {
        transport,
        turns,
        origin: given_origin(origin)?,
        file,
    })
}

// Splits off the last two arguments, ORIGIN and FILE, and returns the other arguments, ORIGIN and
// FILE. `None` if there are fewer than two arguments, or if ORIGIN or FILE begins with `-`.
fn zone_words<'a, S: AsStr>(words: &'a [S]) -> Option<(&'a [S], &'a str, &'a str)>
    ensures some { IfSome result (λ r. EndWords (map S.text words.entry.now) (map S.text r.0.now)
        (record { origin = r.1.now; file = r.2.now })) }
    ensures none { IsNone result → (front : List Octets) (z : ZoneWords)
        → EndWords (map S.text words.entry.now) front z → ⊥ }
{
    let (file, others) = words.split_last()?;
    let (origin, front) = others.split_last()?;
    let (origin, file) = (origin.as_str(), file.as_str());
    if is_dashed(origin) || is_dashed(file) {
        return None;
    }
    Some((front, origin, file))
}

// The service that the arguments before ORIGIN and FILE ask for.
fn given_service<'a, S: AsStr>(alloc: Global, front: &'a [S]) -> Result<Service<'a>, FaultText>
    ensures ok { IfOk result (λ s. IsService (map S.text front.entry.now) (service_of s)) }
    ensures usage { result ≡ Err FaultText.Usage → (a : ServiceAsked)
        → IsService (map S.text front.entry.now) a → ⊥ }
    ensures fault { IfErr result IsRefusal }
{
    match front.split_first() {
        Some((word, options)) if word.as_str() == ONCE => {
            Ok(Service::Once(given_limit(alloc, options)?))
        }
        _ => read_service(front).ok_or(FaultText::Usage),
    }
}

// The limit that the options of `once` ask for.
fn given_limit<'a, S: AsStr>(alloc: Global, options: &'a [S]) -> Result<Limit, FaultText>
    ensures ok { IfOk result (λ limit. map S.text options.entry.now
        ≡ limit_words (transport_of limit)) }
    ensures usage { result ≡ Err FaultText.Usage → (t : Transport)
        → map S.text options.entry.now ≡ limit_words t → ⊥ }
    ensures fault { IfErr result IsRefusal }
{
    let matches = once_command(alloc)?.try_get_matches_from(options)?;
    // `clap` alone would also accept `--`, as the end of the options.
    if matches.get_flag(TCP) && are_words(options, &[TCP_OPTION]) {
        return Ok(Limit::Tcp);
    }
    if are_words(options, &[]) {
        return Ok(Limit::Udp);
    }
    Err(FaultText::Usage)
}

// Parses the arguments before ORIGIN and FILE: `udp` or `tcp`, ADDR and TURNS.
fn read_service<'a, S: AsStr>(front: &'a [S]) -> Option<Service<'a>>
    ensures some { IfSome result (λ s. IsService (map S.text front.entry.now) (service_of s)) }
    ensures none { IsNone result → (t : Transport) (address : Octets) (n : ℕ)
        → IsService (map S.text front.entry.now) (by_turns t address n) → ⊥ }
{
    let [transport, address, turns] = front else {
        return None;
    };
    let (address, turns) = (address.as_str(), read_turns(turns.as_str())?);
    match read_transport(transport.as_str())? {
        Limit::Udp => Some(Service::Udp { address, turns }),
        Limit::Tcp => Some(Service::Tcp { address, turns }),
    }
}

// Parses the arguments before ORIGIN and FILE: the options of the checker.
fn given_flags<'a, S: AsStr>(alloc: Global, options: &'a [S]) -> Result<Flags, FaultText>
    ensures ok { IfOk result (λ flags.
        AreOptions (options_of flags) (map S.text options.entry.now)) }
    ensures usage { result ≡ Err FaultText.Usage → (o : Options)
        → AreOptions o (map S.text options.entry.now) → ⊥ }
    ensures fault { IfErr result IsRefusal }
{
    let matches = check_command(alloc)?.try_get_matches_from(options)?;
    let flags = Flags {
        quiet: matches.get_flag(QUIET),
        print: matches.get_flag(PRINT),
    };
    // `clap` alone would also accept `--`, as the end of the options.
    if are_options(options, flags) {
        return Ok(flags);
    }
    Err(FaultText::Usage)
}

// Whether the arguments are these options.
fn are_options<S: AsStr>(words: &[S], flags: Flags) -> bool
    ensures same { OnTrue result (AreOptions (options_of flags) (map S.text words.now)) }
    ensures other { OnFalse result (AreOptions (options_of flags) (map S.text words.now) → ⊥) }
{
    match (flags.quiet, flags.print) {
        (false, false) => are_words(words, &[]),
        (true, false) => are_words(words, &[QUIET_OPTION]),
        (false, true) => are_words(words, &[PRINT_OPTION]),
        (true, true) => {
            are_words(words, &[QUIET_OPTION, PRINT_OPTION])
                || are_words(words, &[PRINT_OPTION, QUIET_OPTION])
        }
    }
}

// Parses the arguments before ORIGIN and FILE: `udp` or `tcp`, and TURNS.
fn transport_and_turns<S: AsStr>(front: &[S]) -> Option<(Limit, u32)>
    ensures some { IfSome result (λ r. (map S.text front.now
        ≡ transport_word (transport_of r.0) ∷ decimal r.1 ∷ []) × (1 ≤ r.1) × (r.1 ≤ 1000000)) }
    ensures none { IsNone result → (t : Transport) (n : ℕ)
        → map S.text front.now ≡ transport_word t ∷ decimal n ∷ [] → 1 ≤ n → n ≤ 1000000 → ⊥ }
{
    let [transport, turns] = front else {
        return None;
    };
    let transport = read_transport(transport.as_str())?;
    Some((transport, read_turns(turns.as_str())?))
}

// Whether the arguments are the wanted ones.
fn are_words<S: AsStr>(words: &[S], wanted: &[&str]) -> bool
    ensures same { OnTrue result (map S.text words.now ≡ map (λ w. w.now) wanted.now) }
    ensures other { OnFalse result (map S.text words.now ≢ map (λ w. w.now) wanted.now) }
{
    match (words.split_first(), wanted.split_first()) {
        (Some((word, words)), Some((first, wanted))) => {
            word.as_str() == *first && are_words(words, wanted)
        }
        (None, None) => true,
        _ => false,
    }
}

fn read_transport(word: &str) -> Option<Limit>
    ensures some { IfSome result (λ limit. word.now ≡ transport_word (transport_of limit)) }
    ensures none { IsNone result → (t : Transport) → word.now ≡ transport_word t → ⊥ }
{
    match word {
        UDP => Some(Limit::Udp),
        TCP => Some(Limit::Tcp),
        _ => None,
    }
}

// Parses TURNS.
fn read_turns(word: &str) -> Option<u32>
    ensures some { IfSome result
        (λ turns. (word.now ≡ decimal turns) × (1 ≤ turns) × (turns ≤ 1000000)) }
    ensures none { IsNone result → (n : ℕ) → word.now ≡ decimal n → 1 ≤ n → n ≤ 1000000 → ⊥ }
{
    let turns = read_number(word.as_bytes(), MOST_TURNS)?;
    if turns == 0 {
        return None;
    }
    Some(turns)
}

fn is_dashed(word: &str) -> bool
    ensures { result ≡ is_dashed word.now }
{
    matches!(word.as_bytes(), [b'-', ..])
}

// The name that ORIGIN spells, relative to the root, in lower case.
fn given_origin(word: &str) -> Result<Name, FaultText>
    ensures ok { IfOk result (IsOrigin word.now) }
    ensures err { IfErr result (λ fault. (fault ≡ FaultText.BadOrigin) × IsNoOrigin word.now) }
{
    let origin = Name::read_text(word.as_bytes(), &Name::root())?;
    Ok(origin.fold())
}

fn once_command<'a>(alloc: Global) -> Result<Command<'a>, AllocError>
    ensures { IfOk result (λ c. app_of c ≡ once_app) }
{
    bare_command(alloc, ONCE).arg(option(alloc, TCP))
}

fn check_command<'a>(alloc: Global) -> Result<Command<'a>, AllocError>
    ensures { IfOk result (λ c. app_of c ≡ check_app) }
{
    bare_command(alloc, "zonecheck")
        .arg(option(alloc, QUIET))?
        .arg(option(alloc, PRINT))
}

// A command that takes nothing, not even options for help or the version.
fn bare_command<'a>(alloc: Global, name: &'a str) -> Command<'a>
    ensures { app_of result ≡ bare_app name.entry.now }
{
    Command::new(alloc, name)
        .no_binary_name(true)
        .disable_help_flag(true)
        .disable_version_flag(true)
}

fn option<'a>(alloc: Global, name: &'a str) -> Arg<'a>
    ensures rule { rule_of result ≡ option_rule name.entry.now }
    ensures local { result.global ≡ false }
{
    Arg::new(alloc, name).long(name).action(ArgAction::SetTrue)
}
