//! Putting the lines of a document as rows: twenty with one statement, and the rest one by one.

ghost use Rattle.std.specs.Prelude.{◌≡◌, ◌+◌, ◌<◌, ◌^◌, pos, [], ◌∷◌, ◌++◌, length, IfOk};
ghost use Rattle.sqlite_value.specs.declared.value.Value.TheVariants.{Int};
ghost use Rattle.sqlite.specs.Held.{state};
ghost use Rattle.sqlite.specs.Values.{bound};
ghost use Rattle.hub_store.specs.Items.{placed_lines};
ghost use Rattle.hub_store.specs.inner.PutsLines.{PutsLines};

use crate::numbers::kind_number;
use crate::statement::run;
use iodef_tree::Line;
use sqlite::types::ValueRef;
use sqlite::{Alter, Error, Transaction, params};
use std::alloc::{AllocError, Global};

/// How many lines one statement puts. Twenty cost two thirds of what single lines do; a hundred gain nothing more.
const AT_ONCE: usize = 20;

/// Appends a line with its place to the parameters.
fn push_line<'a>(
    params: &mut Vec<ValueRef<'a>>,
    place: usize,
    line: &'a Line,
) -> Result<(), AllocError>
    requires { place < 2 ^ 63 }
    ensures { IfOk result (λ _.
        bound params.new.items ≡ bound params.old.items ++ placed_lines place (line.now ∷ [])) }
{
    params.extend_from_slice(params![
        place as i64,
        line.depth,
        line.name.as_str(),
        line.in_array,
        kind_number(line.kind),
        line.text.as_str(),
    ])
}

/// The parameters of a statement that puts these lines.
fn params_of<'a>(
    alloc: Global,
    incident: u32,
    place: usize,
    lines: &'a [Line],
) -> Result<Vec<ValueRef<'a>>, AllocError>
    requires { place + length lines.now < 2 ^ 63 }
    ensures { IfOk result (λ params.
        bound params.items ≡ Int (pos incident) ∷ placed_lines place lines.now) }
{
    let mut params = Vec::new(alloc);
    params.extend_from_slice(params![incident])?;
    let mut at = place;
    for line in lines {
        push_line(&mut params, at, line)?;
        at += 1;
    }
    Ok(params)
}

fn put_twenty<S: Alter>(
    tx: &mut Transaction<'_, S>,
    alloc: Global,
    incident: u32,
    place: usize,
    lines: &[Line],
) -> Result<(), Error>
    requires room { place + length lines.now < 2 ^ 63 }
    requires many { length lines.now ≡ AT_ONCE }
    ensures same_reference { tx.new.conn.ghost_name ≡ tx.old.conn.ghost_name }
    ensures puts { PutsLines incident place lines.now (state S.Store tx.old.conn.now)
        (state S.Store tx.new.conn.now) result }
{
    let params = params_of(alloc, incident, place, lines)?;
    run(
        tx,
        "INSERT INTO item (incident, place, depth, name, in_array, kind, text) VALUES (?1, ?2, ?3, ?4, ?5, ?6, ?7), (?1, ?8, ?9, ?10, ?11, ?12, ?13), (?1, ?14, ?15, ?16, ?17, ?18, ?19), (?1, ?20, ?21, ?22, ?23, ?24, ?25), (?1, ?26, ?27, ?28, ?29, ?30, ?31), (?1, ?32, ?33, ?34, ?35, ?36, ?37), (?1, ?38, ?39, ?40, ?41, ?42, ?43), (?1, ?44, ?45, ?46, ?47, ?48, ?49), (?1, ?50, ?51, ?52, ?53, ?54, ?55), (?1, ?56, ?57, ?58, ?59, ?60, ?61), (?1, ?62, ?63, ?64, ?65, ?66, ?67), (?1, ?68, ?69, ?70, ?71, ?72, ?73), (?1, ?74, ?75, ?76, ?77, ?78, ?79), (?1, ?80, ?81, ?82, ?83, ?84, ?85), (?1, ?86, ?87, ?88, ?89, ?90, ?91), (?1, ?92, ?93, ?94, ?95, ?96, ?97), (?1, ?98, ?99, ?100, ?101, ?102, ?103), (?1, ?104, ?105, ?106, ?107, ?108, ?109), (?1, ?110, ?111, ?112, ?113, ?114, ?115), (?1, ?116, ?117, ?118, ?119, ?120, ?121)",
        params.as_slice(),
    )
}

fn put_one<S: Alter>(
    tx: &mut Transaction<'_, S>,
    incident: u32,
    place: usize,
    line: &Line,
) -> Result<(), Error>
    requires { place < 2 ^ 63 }
    ensures same_reference { tx.new.conn.ghost_name ≡ tx.old.conn.ghost_name }
    ensures puts { PutsLines incident place (line.now ∷ []) (state S.Store tx.old.conn.now)
        (state S.Store tx.new.conn.now) result }
{
    run(
        tx,
        "INSERT INTO item (incident, place, depth, name, in_array, kind, text) VALUES (?1, ?2, ?3, ?4, ?5, ?6, ?7)",
        params![
            incident,
            place as i64,
            line.depth,
            line.name.as_str(),
            line.in_array,
            kind_number(line.kind),
            line.text.as_str(),
        ],
    )
}

fn put_each<S: Alter>(
    tx: &mut Transaction<'_, S>,
    incident: u32,
    place: usize,
    lines: &[Line],
) -> Result<(), Error>
    requires { place + length lines.now < 2 ^ 63 }
    ensures same_reference { tx.new.conn.ghost_name ≡ tx.old.conn.ghost_name }
    ensures puts { PutsLines incident place lines.now (state S.Store tx.old.conn.now)
        (state S.Store tx.new.conn.now) result }
{
    let mut at = place;
    for line in lines {
        put_one(tx, incident, at, line)?;
        at += 1;
    }
    Ok(())
}

/// Puts up to twenty lines, the first at this place.
fn put_some<S: Alter>(
    tx: &mut Transaction<'_, S>,
    alloc: Global,
    incident: u32,
    place: usize,
    lines: &[Line],
) -> Result<(), Error>
    requires { place + length lines.now < 2 ^ 63 }
    ensures same_reference { tx.new.conn.ghost_name ≡ tx.old.conn.ghost_name }
    ensures puts { PutsLines incident place lines.now (state S.Store tx.old.conn.now)
        (state S.Store tx.new.conn.now) result }
{
    if lines.len() == AT_ONCE {
        put_twenty(tx, alloc, incident, place, lines)
    } else {
        put_each(tx, incident, place, lines)
    }
}

/// Puts the lines of an incident's document, the first at place 1.
pub(crate) fn put_lines<S: Alter>(
    tx: &mut Transaction<'_, S>,
    alloc: Global,
    incident: u32,
    lines: &[Line],
) -> Result<(), Error>
    ensures same_reference { tx.new.conn.ghost_name ≡ tx.old.conn.ghost_name }
    ensures puts { PutsLines incident 1 lines.now (state S.Store tx.old.conn.now)
        (state S.Store tx.new.conn.now) result }
{
    let mut place = 1;
    for some in lines.chunks(AT_ONCE) {
        put_some(tx, alloc, incident, place, some)?;
        place += some.len();
    }
    Ok(())
}
