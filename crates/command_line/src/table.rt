ghost use Rattle.std.specs.Prelude.{◌≡◌, [], false, true, IfOk};
ghost use Rattle.clap.specs.Words.{rule_of, with_rule, with_subcommand, new_app};
ghost use Rattle.command_line.specs.Table.{IsApp, option_rule, flag_rule, place_rule, places_rule, gate_app, gate_top};
ghost use Rattle.command_line.specs.Table.{simulate_shape, decode_shape, encode_shape, render_shape, verify_shape, make_shape, serve_shape};

use clap::{Arg, ArgAction, Command};
use std::alloc::{AllocError, Global};

fn option_of<'a>(alloc: Global, name: &'a str, required: bool) -> Arg<'a>
    ensures rule { rule_of result ≡ option_rule required name.entry.now }
    ensures local { result.global ≡ false }
{
    Arg::new(alloc, name)
        .long(name)
        .action(ArgAction::Set)
        .required(required)
}

fn flag_of<'a>(alloc: Global, name: &'a str) -> Arg<'a>
    ensures rule { rule_of result ≡ flag_rule name.entry.now }
    ensures local { result.global ≡ false }
{
    Arg::new(alloc, name).long(name).action(ArgAction::SetTrue)
}

fn place_of<'a>(alloc: Global, name: &'a str) -> Arg<'a>
    ensures rule { rule_of result ≡ place_rule name.entry.now }
    ensures local { result.global ≡ false }
{
    Arg::new(alloc, name).action(ArgAction::Set).required(true)
}

fn places_of<'a>(alloc: Global, name: &'a str) -> Arg<'a>
    ensures rule { rule_of result ≡ places_rule name.entry.now }
    ensures local { result.global ≡ false }
{
    Arg::new(alloc, name)
        .action(ArgAction::Append)
        .required(true)
}

fn with_arg<'a>(command: Command<'a>, arg: Arg<'a>) -> Result<Command<'a>, AllocError>
    requires { arg.global ≡ false }
    ensures { IfOk result (λ c. (a r : _) → IsApp a command.entry → rule_of arg.entry ≡ r → IsApp (with_rule a r) c) }
{
    command.arg(arg)
}

fn with_command<'a>(command: Command<'a>, sub: Command<'a>) -> Result<Command<'a>, AllocError>
    ensures { IfOk result (λ c. (a b : _) → IsApp a command.entry → IsApp b sub.entry → IsApp (with_subcommand a b.top) c) }
{
    command.subcommand(sub)
}

fn command_of<'a>(alloc: Global, name: &'a str) -> Command<'a>
    ensures { IsApp (new_app name.entry.now) result }
{
    Command::new(alloc, name)
}

fn simulate<'a>(alloc: Global) -> Result<Command<'a>, AllocError>
    ensures { IfOk result (λ c. IsApp (record { top = simulate_shape; subs = [] }) c) }
{
    let command = command_of(alloc, "simulate");
    let command = with_arg(command, flag_of(alloc, "pcm"))?;
    let command = with_arg(command, option_of(alloc, "seed", false))?;
    let command = with_arg(command, place_of(alloc, "input"))?;
    with_arg(command, place_of(alloc, "output"))
}

fn decode<'a>(alloc: Global) -> Result<Command<'a>, AllocError>
    ensures { IfOk result (λ c. IsApp (record { top = decode_shape; subs = [] }) c) }
{
    let command = command_of(alloc, "decode");
    let command = with_arg(command, place_of(alloc, "input"))?;
    with_arg(command, place_of(alloc, "output"))
}

fn encode<'a>(alloc: Global) -> Result<Command<'a>, AllocError>
    ensures { IfOk result (λ c. IsApp (record { top = encode_shape; subs = [] }) c) }
{
    let command = command_of(alloc, "encode");
    let command = with_arg(command, place_of(alloc, "input"))?;
    with_arg(command, place_of(alloc, "output"))
}

fn render<'a>(alloc: Global) -> Result<Command<'a>, AllocError>
    ensures { IfOk result (λ c. IsApp (record { top = render_shape; subs = [] }) c) }
{
    let command = command_of(alloc, "render");
    let command = with_arg(command, option_of(alloc, "seed", false))?;
    let command = with_arg(command, place_of(alloc, "input"))?;
    with_arg(command, place_of(alloc, "output"))
}

fn verify<'a>(alloc: Global) -> Result<Command<'a>, AllocError>
    ensures { IfOk result (λ c. IsApp (record { top = verify_shape; subs = [] }) c) }
{
    let command = command_of(alloc, "verify");
    let command = with_arg(command, place_of(alloc, "output"))?;
    let command = with_arg(command, place_of(alloc, "player"))?;
    with_arg(command, places_of(alloc, "filer"))
}

fn make<'a>(alloc: Global) -> Result<Command<'a>, AllocError>
    ensures { IfOk result (λ c. IsApp (record { top = make_shape; subs = [] }) c) }
{
    let command = command_of(alloc, "make");
    let command = with_arg(command, place_of(alloc, "seed"))?;
    let command = with_arg(command, place_of(alloc, "count"))?;
    let command = with_arg(command, place_of(alloc, "filers"))?;
    with_arg(command, place_of(alloc, "output"))
}

fn serve<'a>(alloc: Global) -> Result<Command<'a>, AllocError>
    ensures { IfOk result (λ c. IsApp (record { top = serve_shape; subs = [] }) c) }
{
    let command = command_of(alloc, "serve");
    let command = with_arg(command, option_of(alloc, "ring", false))?;
    let command = with_arg(command, option_of(alloc, "delay", false))?;
    let command = with_arg(command, option_of(alloc, "seed", false))?;
    let command = with_arg(command, option_of(alloc, "ticks", false))?;
    let command = with_arg(command, option_of(alloc, "report", false))?;
    let command = with_arg(command, option_of(alloc, "ssrc", false))?;
    let command = with_arg(command, option_of(alloc, "sequence", false))?;
    let command = with_arg(command, option_of(alloc, "stamp", false))?;
    let command = with_arg(command, option_of(alloc, "elastic", false))?;
    let command = with_arg(command, option_of(alloc, "reply", true))?;
    let command = with_arg(command, option_of(alloc, "speaker", true))?;
    let command = with_arg(command, option_of(alloc, "microphone", true))?;
    let command = with_arg(command, option_of(alloc, "journals", true))?;
    with_arg(command, places_of(alloc, "listen"))
}

fn top<'a>(alloc: Global) -> Command<'a>
    ensures { IsApp (record { top = record gate_top { is_leaf = true }; subs = [] }) result }
{
    Command::new(alloc, "gsmgate")
        .no_binary_name(true)
        .disable_help_flag(true)
        .disable_help_subcommand(true)
        .disable_version_flag(true)
        .subcommand_required(true)
}

/// The program's command, with its subcommands.
pub(crate) fn gate<'a>(alloc: Global) -> Result<Command<'a>, AllocError>
    ensures { IfOk result (IsApp gate_app) }
{
    let command = top(alloc);
    let command = with_command(command, simulate(alloc)?)?;
    let command = with_command(command, decode(alloc)?)?;
    let command = with_command(command, encode(alloc)?)?;
    let command = with_command(command, render(alloc)?)?;
    let command = with_command(command, verify(alloc)?)?;
    let command = with_command(command, make(alloc)?)?;
    with_command(command, serve(alloc)?)
}
