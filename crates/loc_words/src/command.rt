//! The command that words are.
ghost use Rattle.std.specs.Prelude.{◌≡◌, ◌≤◌, IfErr, IfOk, IfSome, None, Some, map, option_map, string_bytes};
ghost use Rattle.loc_spec_asked.specs.Orders.{asked_order};
ghost use Rattle.loc_words.specs.Apps.{given_by};
ghost use Rattle.loc_words.specs.Words as spec;

use crate::parser::{Given, read_row};
use crate::row::{CommandRow, OptionKind, OptionRow};
use crate::values::{kind_of, number_of, read_index, read_order, read_scale_and_form};
use crate::{EdgeOrder, Form, Index, Kind, WordsFault};
use std::alloc::{AllocError, Global};

/// A command with its values.
#[derive(Clone, Copy)]
pub enum Command<'a> {
    /// Answers to the points of a file, against a layer.
    Query(Query<'a>),
    /// The features at the points of a file, against a layer.
    Features(Features<'a>),
    /// The counts of a layer.
    Check(LayerFile<'a>),
    /// An index file of a layer.
    Build(Build<'a>),
    /// Answers to the points of a file, from an index file.
    Ask(Ask<'a>),
    /// The judgement of an index file.
    Verify(Verify<'a>),
    /// The face of a point, against a layer.
    Face(Face<'a>),
    /// A generated layer.
    Gen(Gen),
    /// The counts of the answers to the points of a generated layer.
    Trial(Trial),
    /// An index file of either version as one of the second.
    Upgrade(Upgrade<'a>),
    /// The edges of an index file with their sources.
    Edges(Edges<'a>),
    /// The edges that the spans of a file meet, against a layer.
    Stab(Stab<'a>),
    /// The first breach of each feature of a layer.
    Valid(LayerFile<'a>),
    /// The features of a layer by their ids, as the polygons that they cover together.
    Dissolve(LayerFile<'a>),
}

/// What is said of a layer's file: its name, and the scale and the form in which it is read.
#[derive(Clone, Copy)]
pub struct LayerFile<'a> {
    pub name: &'a str,
    pub scale: u8,
    pub form: Form,
}

/// What a query says. Its places are as they stand in the words. The trapezoids are made of edges in the order of a file, or shuffled from a
/// number.
#[derive(Clone, Copy)]
pub struct Query<'a> {
    pub layer: LayerFile<'a>,
    pub points: &'a str,
    pub index: Index,
    pub order: EdgeOrder<'a>,
    pub faces: bool,
}

/// What a question for the features at points says. Its places are as they stand in the words.
#[derive(Clone, Copy)]
pub struct Features<'a> {
    pub layer: LayerFile<'a>,
    pub points: &'a str,
}

/// Of which layer an index file is made, and its name.
#[derive(Clone, Copy)]
pub struct Build<'a> {
    pub layer: LayerFile<'a>,
    pub index: &'a str,
}

/// What is asked, and of which index.
#[derive(Clone, Copy)]
pub struct Ask<'a> {
    pub index: &'a str,
    pub points: &'a str,
}

/// Which index file is judged.
#[derive(Clone, Copy)]
pub struct Verify<'a> {
    pub index: &'a str,
}

/// What a question for a face says. Its places are as they stand in the words.
#[derive(Clone, Copy)]
pub struct Face<'a> {
    pub layer: LayerFile<'a>,
    pub point: &'a str,
}

/// What is said of a layer to be generated.
#[derive(Clone, Copy)]
pub struct Gen {
    pub kind: Kind,
    pub n: u64,
    pub shift: u64,
}

/// What a trial says.
#[derive(Clone, Copy)]
pub struct Trial {
    pub kind: Kind,
    pub n: u64,
    pub shift: u64,
    pub index: Index,
}

/// Which index file's edges are listed.
#[derive(Clone, Copy)]
pub struct Edges<'a> {
    pub index: &'a str,
}

/// Which index file is upgraded, and the name of the new one.
#[derive(Clone, Copy)]
pub struct Upgrade<'a> {
    pub old: &'a str,
    pub new: &'a str,
}

/// What a question for the edges on spans says. Its places are as they stand in the words.
#[derive(Clone, Copy)]
pub struct Stab<'a> {
    pub layer: LayerFile<'a>,
    pub spans: &'a str,
}

const SCALE: OptionRow<'static> = OptionRow {
    name: "scale",
    kind: OptionKind::Required,
};

const FORM: OptionRow<'static> = OptionRow {
    name: "form",
    kind: OptionKind::Optional,
};

const INDEX: OptionRow<'static> = OptionRow {
    name: "index",
    kind: OptionKind::Optional,
};

const ORDER: OptionRow<'static> = OptionRow {
    name: "order",
    kind: OptionKind::Optional,
};

const SHUFFLE: OptionRow<'static> = OptionRow {
    name: "shuffle",
    kind: OptionKind::Optional,
};

const FACES: OptionRow<'static> = OptionRow {
    name: "faces",
    kind: OptionKind::Flag,
};

const QUERY: CommandRow<'static> = CommandRow {
    name: "query",
    places: &["layer", "points"],
    options: &[SCALE, FORM, INDEX, ORDER, SHUFFLE, FACES],
};

const FEATURES: CommandRow<'static> = CommandRow {
    name: "features",
    places: &["layer", "points"],
    options: &[SCALE, FORM],
};

const CHECK: CommandRow<'static> = CommandRow {
    name: "check",
    places: &["layer"],
    options: &[SCALE, FORM],
};

const BUILD: CommandRow<'static> = CommandRow {
    name: "build",
    places: &["layer", "index"],
    options: &[SCALE, FORM],
};

const ASK: CommandRow<'static> = CommandRow {
    name: "ask",
    places: &["index", "points"],
    options: &[],
};

const VERIFY: CommandRow<'static> = CommandRow {
    name: "verify",
    places: &["index"],
    options: &[],
};

const FACE: CommandRow<'static> = CommandRow {
    name: "face",
    places: &["layer", "point"],
    options: &[SCALE, FORM],
};

const GEN: CommandRow<'static> = CommandRow {
    name: "gen",
    places: &["kind", "n", "shift"],
    options: &[],
};

const TRIAL: CommandRow<'static> = CommandRow {
    name: "trial",
    places: &["kind", "n", "shift"],
    options: &[INDEX],
};

const EDGES: CommandRow<'static> = CommandRow {
    name: "edges",
    places: &["index"],
    options: &[],
};

const UPGRADE: CommandRow<'static> = CommandRow {
    name: "upgrade",
    places: &["old", "new"],
    options: &[],
};

const STAB: CommandRow<'static> = CommandRow {
    name: "stab",
    places: &["layer", "spans"],
    options: &[SCALE, FORM],
};

const VALID: CommandRow<'static> = CommandRow {
    name: "valid",
    places: &["layer"],
    options: &[SCALE, FORM],
};

const DISSOLVE: CommandRow<'static> = CommandRow {
    name: "dissolve",
    places: &["layer"],
    options: &[SCALE, FORM],
};

// The layer's file, of what was given.
fn layer_given<'a>(given: &Given<'a>) -> Option<LayerFile<'a>>
    ensures bound { IfSome result (λ file. file.scale ≤ 15) }
    ensures value { option_map spec.layer_by result ≡ spec.layer_given (given_by given.now) }
{
    let name = given.value("layer")?;
    let (scale, form) = read_scale_and_form(given.value("scale"), given.value("form"))?;
    Some(LayerFile { name, scale, form })
}

// The kind, the size and the shift of a generated layer, of what was given.
fn generated_given<'a>(given: &Given<'a>) -> Option<(Kind, u64, u64)>
    ensures { result ≡ spec.generated_given (given_by given.now) }
{
    let kind = kind_of(given.value("kind")?)?;
    let n = number_of(given.value("n")?)?;
    let shift = number_of(given.value("shift")?)?;
    Some((kind, n, shift))
}

// The index and the order of the edges, of what was given.
fn order_given<'a>(given: &Given<'a>) -> Option<(Index, EdgeOrder<'a>)>
    ensures { option_map (λ by. (by.0, asked_order by.1)) result ≡ spec.order_given (given_by given.now) }
{
    let index = read_index(given.value("index"))?;
    let order = read_order(index, given.value("order"), given.value("shuffle"))?;
    Some((index, order))
}

fn query_from<'a>(given: &Given<'a>) -> Option<Command<'a>>
    ensures scale { IfSome result spec.HasScale }
    ensures value { option_map spec.asked_by result ≡ spec.query_from (given_by given.now) }
{
    let layer = layer_given(given)?;
    let points = given.value("points")?;
    let (index, order) = order_given(given)?;
    let faces = given.stands("faces");
    Some(Command::Query(Query {
        layer,
        points,
        index,
        order,
        faces,
    }))
}

fn features_from<'a>(given: &Given<'a>) -> Option<Command<'a>>
    ensures scale { IfSome result spec.HasScale }
    ensures value { option_map spec.asked_by result ≡ spec.features_from (given_by given.now) }
{
    let layer = layer_given(given)?;
    let points = given.value("points")?;
    Some(Command::Features(Features { layer, points }))
}

fn check_from<'a>(given: &Given<'a>) -> Option<Command<'a>>
    ensures scale { IfSome result spec.HasScale }
    ensures value { option_map spec.asked_by result ≡ spec.check_from (given_by given.now) }
{
    Some(Command::Check(layer_given(given)?))
}

fn build_from<'a>(given: &Given<'a>) -> Option<Command<'a>>
    ensures scale { IfSome result spec.HasScale }
    ensures value { option_map spec.asked_by result ≡ spec.build_from (given_by given.now) }
{
    let layer = layer_given(given)?;
    let index = given.value("index")?;
    Some(Command::Build(Build { layer, index }))
}

fn ask_from<'a>(given: &Given<'a>) -> Option<Command<'a>>
    ensures scale { IfSome result spec.HasScale }
    ensures value { option_map spec.asked_by result ≡ spec.ask_from (given_by given.now) }
{
    let index = given.value("index")?;
    let points = given.value("points")?;
    Some(Command::Ask(Ask { index, points }))
}

fn verify_from<'a>(given: &Given<'a>) -> Option<Command<'a>>
    ensures scale { IfSome result spec.HasScale }
    ensures value { option_map spec.asked_by result ≡ spec.verify_from (given_by given.now) }
{
    let index = given.value("index")?;
    Some(Command::Verify(Verify { index }))
}

fn face_from<'a>(given: &Given<'a>) -> Option<Command<'a>>
    ensures scale { IfSome result spec.HasScale }
    ensures value { option_map spec.asked_by result ≡ spec.face_from (given_by given.now) }
{
    let layer = layer_given(given)?;
    let point = given.value("point")?;
    Some(Command::Face(Face { layer, point }))
}

fn gen_from<'a>(given: &Given<'a>) -> Option<Command<'a>>
    ensures scale { IfSome result spec.HasScale }
    ensures value { option_map spec.asked_by result ≡ spec.gen_from (given_by given.now) }
{
    let (kind, n, shift) = generated_given(given)?;
    Some(Command::Gen(Gen { kind, n, shift }))
}

fn valid_from<'a>(given: &Given<'a>) -> Option<Command<'a>>
    ensures scale { IfSome result spec.HasScale }
    ensures value { option_map spec.asked_by result ≡ spec.valid_from (given_by given.now) }
{
    Some(Command::Valid(layer_given(given)?))
}

fn trial_from<'a>(given: &Given<'a>) -> Option<Command<'a>>
    ensures scale { IfSome result spec.HasScale }
    ensures value { option_map spec.asked_by result ≡ spec.trial_from (given_by given.now) }
{
    let (kind, n, shift) = generated_given(given)?;
    let index = read_index(given.value("index"))?;
    Some(Command::Trial(Trial {
        kind,
        n,
        shift,
        index,
    }))
}

fn dissolve_from<'a>(given: &Given<'a>) -> Option<Command<'a>>
    ensures scale { IfSome result spec.HasScale }
    ensures value { option_map spec.asked_by result ≡ spec.dissolve_from (given_by given.now) }
{
    Some(Command::Dissolve(layer_given(given)?))
}

fn edges_from<'a>(given: &Given<'a>) -> Option<Command<'a>>
    ensures scale { IfSome result spec.HasScale }
    ensures value { option_map spec.asked_by result ≡ spec.edges_from (given_by given.now) }
{
    let index = given.value("index")?;
    Some(Command::Edges(Edges { index }))
}

fn upgrade_from<'a>(given: &Given<'a>) -> Option<Command<'a>>
    ensures scale { IfSome result spec.HasScale }
    ensures value { option_map spec.asked_by result ≡ spec.upgrade_from (given_by given.now) }
{
    let old = given.value("old")?;
    let new = given.value("new")?;
    Some(Command::Upgrade(Upgrade { old, new }))
}

fn stab_from<'a>(given: &Given<'a>) -> Option<Command<'a>>
    ensures scale { IfSome result spec.HasScale }
    ensures value { option_map spec.asked_by result ≡ spec.stab_from (given_by given.now) }
{
    let layer = layer_given(given)?;
    let spans = given.value("spans")?;
    Some(Command::Stab(Stab { layer, spans }))
}

// The row of the command of this name.
fn row_named(name: &str) -> Option<&'static CommandRow<'static>>
    ensures { option_map (λ row. spec.row_of row.now) result ≡ spec.row_in spec.commands name.now }
{
    match name {
        "query" => Some(&QUERY),
        "features" => Some(&FEATURES),
        "check" => Some(&CHECK),
        "build" => Some(&BUILD),
        "ask" => Some(&ASK),
        "verify" => Some(&VERIFY),
        "face" => Some(&FACE),
        "gen" => Some(&GEN),
        "trial" => Some(&TRIAL),
        "upgrade" => Some(&UPGRADE),
        "edges" => Some(&EDGES),
        "stab" => Some(&STAB),
        "valid" => Some(&VALID),
        "dissolve" => Some(&DISSOLVE),
        _ => None,
    }
}

// The command of this name that is made of what was given for its row.
fn command_from<'a>(name: &str, given: &Given<'a>) -> Option<Command<'a>>
    ensures scale { IfSome result spec.HasScale }
    ensures value { option_map spec.asked_by result ≡ spec.made_in spec.commands name.now (given_by given.now) }
{
    match name {
        "query" => query_from(given),
        "features" => features_from(given),
        "check" => check_from(given),
        "build" => build_from(given),
        "ask" => ask_from(given),
        "verify" => verify_from(given),
        "face" => face_from(given),
        "gen" => gen_from(given),
        "trial" => trial_from(given),
        "upgrade" => upgrade_from(given),
        "edges" => edges_from(given),
        "stab" => stab_from(given),
        "valid" => valid_from(given),
        "dissolve" => dissolve_from(given),
        _ => None,
    }
}

// The command of this name that the words behind it are.
fn command_named<'a>(
    alloc: Global,
    name: &str,
    words: &'a [String],
) -> Result<Option<Command<'a>>, AllocError>
    ensures scale { IfOk result (λ command. IfSome command spec.HasScale) }
    ensures value { IfOk result (λ command. option_map spec.asked_by command ≡ spec.named_in spec.commands name.now (map string_bytes words.now)) }
{
    let Some(row) = row_named(name) else {
        return Ok(None);
    };
    match read_row(alloc, row, words)? {
        Some(given) => Ok(command_from(name, &given)),
        None => Ok(None),
    }
}

/// The command that the words are.
pub fn command_of<'a>(alloc: Global, words: &'a [String]) -> Result<Command<'a>, WordsFault>
    ensures ok { IfOk result (λ c. spec.command_of (map string_bytes words.now) ≡ Some (spec.asked_by c)) }
    ensures scale { IfOk result spec.HasScale }
    ensures refused { IfErr result (λ e. e ≡ WordsFault.Refused → spec.command_of (map string_bytes words.now) ≡ None) }
{
    let Some((name, rest)) = words.split_first() else {
        return Err(WordsFault::Refused);
    };
    command_named(alloc, name, rest)?.ok_or(WordsFault::Refused)
}
