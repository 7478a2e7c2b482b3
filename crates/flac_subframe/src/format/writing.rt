//! Subframes, written.

ghost use Rattle.std.specs.Prelude.{◌≡◌, ◌≤◌, ◌<◌, ◌+◌, ◌*◌, ◌-◌, ◌++◌, List, length, All, flat_map, map, take};
ghost use Rattle.flac_bits.specs.Rice.{IsResidual};
ghost use Rattle.flac_bits.specs.Signed.{signed, FitsBits};
ghost use Rattle.flac_bits.specs.Written.{Writes};
ghost use Rattle.flac_subframe.specs.format.Bodies.{cut, fixed, StandsFor, spelled};
ghost use Rattle.flac_subframe.specs.format.Chosen.{HasPredictor, offered};
ghost use Rattle.flac_subframe.specs.format.Family.{IsMadeAs};
ghost use Rattle.flac_subframe.specs.format.inner.Codes.{IsType, type_code};
ghost use Rattle.flac_subframe.specs.format.inner.Family.{type_number};
ghost use Rattle.flac_subframe.specs.format.Handed.{coefficients_in, predictor_of, handed};
ghost use Rattle.flac_subframe.specs.format.Cost.{MayCode, MayCodeEach, MayWrite, coding_of, parameter_bits_of};
ghost use Rattle.flac_subframe.specs.format.inner.Cost.{codings_lent};
ghost use Rattle.flac_subframe.specs.format.Spelling.{coding_spelling, residual_spelling, predictor_spelling, header_spelling, subframe_spelling};
ghost use Rattle.flac_subframe.specs.format.inner.Writing.{CanEncode, CanPredict, body_lent, content_chosen, linear_spelled, parts_spelling, residual_lent, rest_spelling, subframe_chosen};

use crate::format::coding::Coding;
use crate::format::coding_method::CodingMethod;
use crate::format::content::{ChoiceView, ContentKind, PredictorKind};
use crate::format::leaving::take_fixed;
use crate::format::leaving_narrow::take_left;
use crate::format::linear::LinearPredictor;
use crate::format::numbers::{APART, power};
use crate::format::predictors::fixed_coefficients;
use crate::format::subframe_type::SubframeType;
use crate::format::wasted::without_wasted;
use flac_bits::{BitWriter, Target, Why};

/// Writes signed numbers of n bits; of none nothing.
fn write_signed<W: Target>(writer: &mut BitWriter<W>, n: u32, values: &[i64]) -> Result<(), Why>
    requires few { n ≤ 33 }
    requires range { All (FitsBits 33) values.now }
    ensures { Writes (flat_map (signed n) values.now) writer.old writer.new result }
{
    if n == 0 {
        return Ok(());
    }
    for value in values {
        writer.put_signed(n, *value)?;
    }
    Ok(())
}

/// Writes a partition.
fn write_partition<W: Target>(
    writer: &mut BitWriter<W>,
    method: CodingMethod,
    coding: Coding,
    values: &[i64],
) -> Result<(), Why>
    requires may { MayCode (parameter_bits_of method) values.now coding }
    requires range { All IsResidual values.now }
    ensures { Writes (coding_spelling (parameter_bits_of method) coding values.now) writer.old writer.new result }
{
    match coding {
        Coding::Rice(parameter) => {
            writer.put(method.parameter_bits(), parameter as u64)?;
            writer.put_rice_partition(parameter as u32, values)
        }
        Coding::Escape(width) => {
            let field = u64::from(method.escape()) * 32 + width as u64;
            writer.put(method.parameter_bits() + 5, field)?;
            write_signed(writer, width as u32, values)
        }
    }
}

/// Writes partitions, of which the first has a length of its own. The coding of each is a byte.
fn write_partitions<W: Target>(
    writer: &mut BitWriter<W>,
    method: CodingMethod,
    first: usize,
    size: usize,
    codings: &[u8],
    values: &[i64],
) -> Result<(), Why>
    requires may { MayCodeEach (parameter_bits_of method) first size values.now (map coding_of codings.now) }
    requires range { All IsResidual values.now }
    requires cut { length values.now + size ≡ first + length codings.now * size }
    ensures { Writes (parts_spelling method first size values.now codings.now) writer.old writer.new result }
{
    let mut rest = values;
    let mut long = first;
    for byte in codings {
        let (part, after) = rest.split_at(long);
        write_partition(writer, method, Coding::of_byte(*byte), part)?;
        rest = after;
        long = size;
    }
    Ok(())
}

/// Writes the residual of a predictor of an order.
fn write_residual<W: Target>(
    writer: &mut BitWriter<W>,
    choice: &ChoiceView<'_>,
    order: usize,
    values: &[i64],
) -> Result<(), Why>
    requires few { length values.now + order ≤ 65535 }
    requires may { MayWrite 15 order values.now (codings_lent choice.now) }
    requires range { All IsResidual values.now }
    ensures { Writes (residual_spelling (residual_lent order values.now choice.now)) writer.old writer.new result }
{
    let form = choice.form.residual;
    let size = (values.len() + order) / power(form.partition_order);
    let field = form.method.code() * 16 + form.partition_order as u64;
    writer.put(6, field)?;
    write_partitions(
        writer,
        form.method,
        size - order,
        size,
        choice.codings,
        values,
    )
}

/// Writes the content of a fixed predictor; the places are overwritten.
fn write_fixed<W: Target>(
    writer: &mut BitWriter<W>,
    order: usize,
    choice: &ChoiceView<'_>,
    depth: u32,
    samples: &[i64],
    values: &mut [i64],
) -> Result<(), Why>
    requires order { order ≤ 4 }
    requires few { length samples.now ≤ 65535 }
    requires depth { (1 ≤ depth) × (depth ≤ 33) }
    requires fits { All (FitsBits 33) samples.now }
    requires places { length samples.now ≤ length values.old }
    requires predicts { CanPredict (fixed order) choice.now samples.now }
    ensures { Writes (spelled depth (body_lent (fixed order) choice.now samples.now)) writer.old writer.new result }
{
    let coefficients = fixed_coefficients(order as u32);
    let count = coefficients.len();
    let places = &mut values[..samples.len() - count];
    take_fixed(order, samples, places);
    write_signed(writer, depth, &samples[..count])?;
    write_residual(writer, choice, count, places)
}

/// Writes coefficients of n bits each.
fn write_coefficients<W: Target>(
    writer: &mut BitWriter<W>,
    n: u32,
    coefficients: &[i32],
) -> Result<(), Why>
    requires some { 1 ≤ n }
    requires few { n ≤ 15 }
    requires range { All (FitsBits 15) coefficients.now }
    ensures { Writes (flat_map (signed n) coefficients.now) writer.old writer.new result }
{
    for coefficient in coefficients {
        writer.put_signed(n, i64::from(*coefficient))?;
    }
    Ok(())
}

/// Writes the precision less one, the shift and the coefficients of a linear predictor.
fn write_predictor<W: Target>(
    writer: &mut BitWriter<W>,
    predictor: &LinearPredictor,
) -> Result<(), Why>
    ensures { Writes (predictor_spelling (handed predictor.now)) writer.old writer.new result }
{
    let precision = predictor.precision();
    let field = (precision as u64 - 1) * 32 + predictor.shift() as u64;
    writer.put(9, field)?;
    write_coefficients(writer, precision, predictor.coefficients())
}

/// Writes a linear predictor and the residual that it left.
fn write_rest<W: Target>(
    writer: &mut BitWriter<W>,
    predictor: &LinearPredictor,
    choice: &ChoiceView<'_>,
    values: &[i64],
) -> Result<(), Why>
    requires few { length values.now + length (coefficients_in predictor.now) ≤ 65535 }
    requires may { MayWrite 15 (length (coefficients_in predictor.now)) values.now (codings_lent choice.now) }
    requires range { All IsResidual values.now }
    ensures { Writes (rest_spelling predictor.now values.now choice.now) writer.old writer.new result }
{
    write_predictor(writer, predictor)?;
    write_residual(writer, choice, predictor.order(), values)
}

/// Writes the content of a linear predictor; the places are overwritten. Those in 32 bits spare time, if there are
/// enough of them.
fn write_linear<W: Target>(
    writer: &mut BitWriter<W>,
    predictor: &LinearPredictor,
    choice: &ChoiceView<'_>,
    depth: u32,
    samples: &[i64],
    values: &mut [i64],
    shorts: &mut [i32],
) -> Result<(), Why>
    requires few { length samples.now ≤ 65535 }
    requires depth { (1 ≤ depth) × (depth ≤ 33) }
    requires fits { All (FitsBits 33) samples.now }
    requires places { length samples.now ≤ length values.old }
    requires predicts { CanPredict (predictor_of predictor.now) choice.now samples.now }
    ensures { Writes (linear_spelled depth predictor.now choice.now samples.now) writer.old writer.new result }
{
    let order = predictor.order();
    let places = &mut values[..samples.len() - order];
    take_left(
        predictor.coefficients(),
        predictor.shift(),
        samples,
        shorts,
        places,
    );
    write_signed(writer, depth, &samples[..order])?;
    write_rest(writer, predictor, choice, places)
}

/// Writes the content of a subframe; the places are overwritten.
fn write_content<W: Target>(
    writer: &mut BitWriter<W>,
    choice: &ChoiceView<'_>,
    predictors: &[LinearPredictor],
    depth: u32,
    samples: &[i64],
    values: &mut [i64],
    shorts: &mut [i32],
) -> Result<(), Why>
    requires some { 0 < length samples.now }
    requires few { length samples.now ≤ 65535 }
    requires depth { (1 ≤ depth) × (depth ≤ 33) }
    requires fits { All (FitsBits 33) samples.now }
    requires places { length samples.now ≤ length values.old }
    requires handed { HasPredictor predictors.now choice.now.form.content }
    requires stands { CanEncode predictors.now choice.now samples.now }
    ensures { Writes (content_chosen depth predictors.now choice.now samples.now) writer.old writer.new result }
{
    match choice.form.content {
        ContentKind::Constant => writer.put_signed(depth, samples[0]),
        ContentKind::Verbatim => write_signed(writer, depth, samples),
        ContentKind::Predicted(kind) => match kind {
            PredictorKind::Fixed(order) => {
                write_fixed(writer, order, choice, depth, samples, values)
            }
            PredictorKind::Linear(index) => {
                let predictor = &predictors[index];
                write_linear(writer, predictor, choice, depth, samples, values, shorts)
            }
        },
    }
}

/// The header of a subframe: its type, and how many bits are wasted.
fn write_header<W: Target>(
    writer: &mut BitWriter<W>,
    kind: SubframeType,
    wasted: u32,
) -> Result<(), Why>
    requires kind { IsType kind }
    requires wasted { wasted ≤ 33 }
    ensures { Writes (header_spelling (type_code kind) wasted) writer.old writer.new result }
{
    let code = kind.code();
    if wasted == 0 {
        return writer.put(8, code * 2);
    }
    writer.put(8, code * 2 + 1)?;
    writer.put_unary(wasted as u64 - 1)
}

/// The type of a subframe (RFC 9639, section 9.2.1).
fn type_of_content(content: ContentKind, predictors: &[LinearPredictor]) -> SubframeType
    requires handed { HasPredictor predictors.now content }
    ensures code { type_code result ≡ type_number predictors.now content }
    ensures within { IsType result }
{
    match content {
        ContentKind::Constant => SubframeType::Constant,
        ContentKind::Verbatim => SubframeType::Verbatim,
        ContentKind::Predicted(kind) => match kind {
            PredictorKind::Fixed(order) => SubframeType::Fixed(order as u32),
            PredictorKind::Linear(index) => {
                let predictor = &predictors[index];
                SubframeType::Linear(predictor.order() as u32)
            }
        },
    }
}

/// Writes a subframe as it was chosen, with places for the samples and for the residual one after another, which are
/// overwritten, and with as many in 32 bits, or with none, which takes longer.
pub(crate) fn write_chosen<W: Target>(
    choice: &ChoiceView<'_>,
    predictors: &[LinearPredictor],
    samples: &[i64],
    depth: u32,
    places: &mut [i64],
    shorts: &mut [i32],
    writer: &mut BitWriter<W>,
) -> Result<(), Why>
    requires some { 0 < length samples.now }
    requires few { length samples.now ≤ 65535 }
    requires depth { (1 ≤ depth) × (depth ≤ 33) }
    requires fits { All (FitsBits depth) samples.now }
    requires places { 2 * length samples.now + 256 ≤ length places.old }
    requires made { IsMadeAs 15 predictors.now choice.now.form choice.now.codings.now samples.now }
    ensures { Writes (subframe_chosen depth predictors.now choice.now samples.now) writer.old writer.new result }
{
    let count = samples.len();
    let (shortened, values) = places.split_at_mut(count + APART);
    let shortened = &mut shortened[..count];
    let (wasted, shortened) = without_wasted(samples, depth, shortened);
    write_header(
        writer,
        type_of_content(choice.form.content, predictors),
        wasted,
    )?;
    write_content(
        writer,
        choice,
        predictors,
        depth - wasted,
        shortened,
        values,
        shorts,
    )
}
