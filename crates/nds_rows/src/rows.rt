//! Playing one row: the calls of its parts, and what is seen after each.

ghost use Rattle.std.specs.Prelude.{◌≡◌, None};

use crate::answers::Came;
use crate::calls::{call, climb, played, seat_scene, turn, turns_to_a_frame};
use crate::checks::fact_differs;
use crate::consoles::turned;
use crate::differences::numbers_differ;
use crate::faults::BadLine;
use crate::lines::{Act, Line, Said};
use crate::parts::{begins_part, change_all, has_call, has_facts};
use crate::players::{BEGUN, Player, go_past};
use crate::scenes::Scene;
use crate::states::{Taken, take_state, wrong_tries};
use nds_top::{Keep, empty_seat, let_go};
use run_ahead::Console;
use std::alloc::{AllocError, Global};

/// Takes a turn, and says how what it answers, and the limit then, differ from what is wanted.
fn take_turn(
    alloc: Global,
    console: &mut Console,
    until: u64,
    wanted: &[Option<u64>],
) -> Result<Option<String>, AllocError> {
    let answer = turn(console, until);
    let seen = turned(alloc, console.limit().0, answer)?;
    numbers_differ(alloc, seen.as_slice(), wanted)
}

/// Takes turns until a frame is whole, and says how their number differs.
fn take_frame(
    alloc: Global,
    console: &mut Console,
    until: u64,
    turns: u64,
) -> Result<Option<String>, AllocError> {
    let taken = turns_to_a_frame(console, until);
    numbers_differ(alloc, &[taken], &[Some(turns)])
}

/// Plays a console on, which is what a call came to then.
fn play_on(
    alloc: Global,
    console: &mut Console,
    until: u64,
    keep: Keep,
    came: &mut Came,
) -> Result<(), BadLine> {
    came.out = played(alloc, console, until, keep)?;
    came.is_told = true;
    came.from = 0;
    Ok(())
}

/// Does with a console what a line says, and says what of it isn't as it is wanted.
fn act_on(
    alloc: Global,
    console: &mut Console,
    act: &Act,
    came: &mut Came,
) -> Result<Option<String>, BadLine> {
    match act {
        Act::Keep | Act::Past(_) | Act::Saved | Act::Again(_) | Act::Tries { count: _, seed: _ } =>
            Ok(None),
        Act::Turn { until, wanted } => Ok(take_turn(alloc, console, *until, wanted.as_slice())?),
        Act::Frame { until, turns } => Ok(take_frame(alloc, console, *until, *turns)?),
        Act::Play { until } => {
            play_on(alloc, console, *until, Keep::Nothing, came)?;
            Ok(None)
        }
        Act::Climb { until } => {
            climb(console, *until);
            play_on(alloc, console, *until, Keep::Last, came)?;
            Ok(None)
        }
    }
}

/// Does with the console what a line says, if there is one.
fn act_seated(
    alloc: Global,
    act: &Act,
    came: &mut Came,
    seat: &mut Option<Console>,
) -> Result<Option<String>, BadLine> {
    match seat {
        Some(console) => act_on(alloc, console, act, came),
        None => Err(BadLine::NoConsole),
    }
}

/// What the call of a part of a row came to, and the console that it left. Where it makes no call there is a new console.
fn come(
    alloc: Global,
    scene: &Scene,
    has_call: bool,
    seat: &mut Option<Console>,
) -> Result<Came, AllocError>
    requires { seat.old ≡ None }
{
    if has_call {
        return call(alloc, scene, seat);
    }
    seat_scene(alloc, scene, seat)?;
    Ok(Came::new(alloc))
}

/// Takes a state and saves it again, and says so where it isn't taken, or isn't the same bytes.
fn take_again(alloc: Global, scene: &Scene, name: &String) -> Result<Option<String>, AllocError> {
    let came = take_state(alloc, scene, scene.bytes(name))?;
    let seen = match came {
        Taken::Refused => 0,
        Taken::Same => 1,
        Taken::Other => 2,
    };
    numbers_differ(alloc, &[seen], &[Some(1)])
}

/// Changes the saved state by chance, and says how many changes are taken and saved again as other bytes, and which is the first.
fn try_changes(
    player: &Player,
    scene: &Scene,
    count: u64,
    seed: u64,
) -> Result<Option<String>, AllocError> {
    let state = player.state.as_slice();
    let seen = wrong_tries(player.alloc, scene, state, count, seed)?;
    numbers_differ(player.alloc, &seen, &[Some(0), Some(0)])
}

/// Does what a line says.
fn do_act(
    player: &mut Player,
    scene: &Scene,
    act: &Act,
    came: &mut Came,
    seat: &mut Option<Console>,
) -> Result<Option<String>, BadLine> {
    match act {
        Act::Keep => player.keep(came),
        Act::Past(count) => Ok(go_past(player.alloc, *count, came)?),
        Act::Saved => player.save(came),
        Act::Again(name) => Ok(take_again(player.alloc, scene, name)?),
        Act::Tries { count, seed } => Ok(try_changes(player, scene, *count, *seed)?),
        _ => act_seated(player.alloc, act, came, seat),
    }
}

/// Plays a line of a row whose call was made.
fn play_line(
    player: &mut Player,
    scene: &Scene,
    said: &Said,
    came: &mut Came,
    seat: &mut Option<Console>,
) -> Result<(), AllocError> {
    match &said.line {
        Line::Is(fact) => {
            let kept = player.kept.as_slice();
            let differs = fact_differs(player.alloc, came, seat.as_ref(), kept, fact)?;
            player.judge(said.number, Ok(differs))
        }
        Line::Act(act) => {
            let differs = do_act(player, scene, act, came, seat);
            player.judge(said.number, differs)
        }
        _ => Ok(()),
    }
}

/// Plays a part of a row over a scene, and the facts of all rows of its table. The seat is empty before.
fn play_seated(
    player: &mut Player,
    scene: &Scene,
    lines: &[Said],
    facts: &[Said],
    seat: &mut Option<Console>,
) -> Result<(), AllocError>
    requires { seat.old ≡ None }
{
    let mut came = come(player.alloc, scene, has_call(lines), seat)?;
    for said in lines {
        play_line(player, scene, said, &mut came, seat)?;
    }
    for said in facts {
        if let Line::Is(_) = &said.line {
            play_line(player, scene, said, &mut came, seat)?;
        }
    }
    Ok(())
}

/// Plays a part of a row over a scene, and the facts of all rows of its table. Its console lasts as long.
fn play_part(
    player: &mut Player,
    scene: &Scene,
    lines: &[Said],
    facts: &[Said],
) -> Result<(), AllocError> {
    let mut seat = empty_seat();
    let played = play_seated(player, scene, lines, facts, &mut seat);
    let_go(seat);
    played
}

/// Changes what a part of a row goes over, and plays it.
fn play_next(
    player: &mut Player,
    scene: &mut Scene,
    lines: &[Said],
    facts: &[Said],
) -> Result<(), AllocError> {
    change_all(player.alloc, scene, player.state.as_slice(), lines)?;
    if has_facts(lines) || has_facts(facts) {
        play_part(player, scene, lines, facts)?;
    }
    Ok(())
}

/// Plays a row. What it goes over, and what is seen last, begins with what the head of its table says.
pub fn play_row(player: &mut Player, head: &[Said], lines: &[Said]) -> Result<(), AllocError> {
    player.standing = BEGUN;
    player.tell_all_bad(lines)?;
    let mut scene = Scene::new(player.alloc)?;
    change_all(player.alloc, &mut scene, player.state.as_slice(), head)?;
    let mut from = 0;
    for at in 1..lines.len() {
        if begins_part(lines, at) {
            play_next(player, &mut scene, lines.get(from..at).unwrap_or(&[]), &[])?;
            from = at;
        }
    }
    play_next(player, &mut scene, lines.get(from..).unwrap_or(&[]), head)
}
