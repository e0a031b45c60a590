// The lengths of a package's attachments by its plan, before any file is read.
ghost use Rattle.std.specs.Prelude.{◌≡◌, ◌<◌, ◌≤◌, ◌^◌, length};
ghost use Rattle.reversal.specs.SideData.{side_data_len};
ghost use Rattle.cook_pack.specs.Lengths.{attachments_len, others_len, others_planned};
ghost use Rattle.cook_pack.specs.Planned.{names_planned};

use crate::{Plan, PlannedKind};
use matroska_names::texts::SIDE_NAME;
use matroska_write::attached_len;

/// The bytes of the side data before its records.
const SIDE_HEAD_LEN: u64 = 12;

/// The bytes of a record of the side data apart from its name.
const RECORD_LEN: u64 = 27;

/// The planned files that are attached as they are.
#[derive(Clone, Copy, Debug)]
struct OtherFiles {
    /// Their number.
    count: u64,
    /// Their length in bytes as attachments, heads and contents.
    len: u64,
}

/// The planned files that are attached as they are, as attachments numbered from 1.
fn others(plan: &Plan) -> OtherFiles
    ensures count { result.count ≡ length (others_planned plan.now.files) }
    ensures len { result.len ≡ others_len 1 (others_planned plan.now.files) }
    ensures few { result.count ≤ 1000000 }
    ensures high { result.len < 2 ^ 52 }
{
    let files = plan.as_slice();
    let mut others = OtherFiles { count: 0, len: 0 };
    for file in files {
        match file.kind {
            PlannedKind::Other => {
                others.count += 1;
                others.len += attached_len(file.name.as_str(), false, others.count, file.length);
            }
        }
    }
    others
}

/// The length in bytes of the side data of the planned files.
fn side_len(plan: &Plan) -> u64
    ensures len { result ≡ side_data_len (names_planned plan.now.files) }
    ensures high { result < 2 ^ 52 }
{
    let files = plan.as_slice();
    let mut total = SIDE_HEAD_LEN;
    for file in files {
        total += RECORD_LEN + file.name.as_str().len() as u64;
    }
    total
}

/// The length in bytes of all attachments: the other files, then the side data, which is numbered behind them.
pub fn attachments_len(plan: &Plan) -> u64
    ensures len { result ≡ attachments_len plan.now }
    ensures high { result < 2 ^ 54 }
{
    let others = others(plan);
    others.len + attached_len(SIDE_NAME, true, others.count + 1, side_len(plan))
}
