//! What a further page put costs, in pages written.
ghost use Rattle.std.specs.Prelude.{◌≡◌, ◌<◌};
ghost use Rattle.cs_tools.specs.Summaries.{cost_at, table_at};

/// What a page put costs at 0 to 99 per cent of the room for chunks that live, in hundredths of a page written.
///
/// It is an estimate, for puts that replace shards at random. If the fraction u of the room lives, a sweep finds the
/// fraction v of an extent's pages alive, with u = (1 - v) / -ln v. It moves these pages and frees the others. So
/// 1 / (1 - v) pages are written for each page put. For each u of 0.00 to 0.99 the v was found by bisection in floating
/// point, and 100 / (1 - v) was rounded to the nearest integer.
pub static COSTS: [u16; 100] = [
    100, 100, 100, 100, 100, 100, 100, 100, 100, 100, 100, 100, 100, 100, 100, 100, 100, 100, 100,
    101, 101, 101, 101, 101, 102, 102, 102, 103, 103, 104, 104, 105, 105, 106, 107, 108, 108, 109,
    110, 111, 112, 113, 114, 115, 117, 118, 119, 121, 122, 124, 126, 127, 129, 131, 133, 135, 138,
    140, 142, 145, 148, 151, 154, 157, 161, 165, 169, 173, 178, 182, 188, 193, 199, 206, 213, 220,
    228, 237, 247, 258, 269, 282, 297, 313, 331, 352, 376, 403, 435, 473, 518, 573, 643, 732, 851,
    1017, 1267, 1684, 2517, 5017,
];

/// What a page put costs if so many tenths of a per cent live, in hundredths of a page written. Between two values of
/// the table it is as far from the lower one as the tenths say. From 99 per cent on it is the last value, though the cost
/// rises without an end.
pub fn cost_at(share: usize) -> usize
    ensures { result ≡ cost_at share }
{
    let low = table_at(share / 10);
    let high = table_at(share / 10 + 1);
    low + high.saturating_sub(low) * (share % 10) / 10
}

/// The value of the table at so many per cent; the last one from 99 on.
fn table_at(percent: usize) -> usize
    ensures value { result ≡ table_at percent }
    ensures small { result < 65536 }
{
    usize::from(COSTS[percent.min(99)])
}
