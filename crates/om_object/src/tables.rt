// The rules on the relocation tables of a file's loaded sections.
ghost use Rattle.std.specs.Prelude.{◌≡◌, ◌<◌, ◌≤◌, ◌+◌, ◌*◌, length, is_some, ◌&&◌};
ghost use Rattle.om_fields.specs.Places.{least, each};
ghost use Rattle.om_fields.specs.HeaderFields.{section_count, head_of, heads_where};
ghost use Rattle.om_object.specs.File.{table_breaks, head_breaks};

use crate::rules::TableRule;
use om_fields::{SecHead, section_number};
use om_reloc::{is_over, table_is_past};

fn breaks_table(rule: TableRule, bytes: &[u8], head: &SecHead) -> bool
    ensures { result ≡ table_breaks rule bytes.now head.now }
{
    match rule {
        TableRule::Past => table_is_past(bytes, head),
        TableRule::Over => is_over(head),
    }
}

fn breaks_head(rule: TableRule, bytes: &[u8], head: &SecHead) -> bool
    ensures { result ≡ head_breaks rule bytes.now head.now }
{
    if section_number(head.name.as_slice()).is_none() {
        return false;
    }
    breaks_table(rule, bytes, head)
}

/// The first section header whose relocation table breaks a rule.
pub fn first_table(rule: TableRule, bytes: &[u8], heads: &[SecHead]) -> Option<u64>
    requires { heads.now ≡ each (head_of bytes.now) (section_count bytes.now) }
    ensures { result ≡ least (heads_where (λ k. head_breaks rule bytes.now (head_of bytes.now k)) bytes.now) }
{
    for k in 0..heads.len() {
        if breaks_head(rule, bytes, &heads[k]) {
            return Some(104 + 64 * k as u64);
        }
    }
    None
}
