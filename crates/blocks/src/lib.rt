// SPDX-License-Identifier: MIT OR Apache-2.0
// The stored form as blocks (W-201): 504 words of content, to and from four blocks of 512 bytes, each with its number and its check.
// What the content means is not known here.
#![tactic(auto)]

ghost use Rattle.std.specs.Prelude.{◌≡◌, length, ◌==◌, if◌then◌else◌};
ghost use Rattle.blocks.specs.Blocks.{written, is_whole, taken};

mod reading;
mod writing;

// The content as a stored form in `out`; none, and nothing written, where `out` is not 2,048 bytes.
#[tactic(auto, unfolding(crate::specs::Blocks::written))]
pub fn write_to(content: &[u32; 504], out: &mut [u8]) -> Option<()>
    ensures value { result ≡ (if length out.old == 2048 then Some tt else None) }
    ensures out_after { out.new ≡ written content.now out.old }
{
    let form = out.as_mut_array::<2048>()?;
    writing::write_form(content, form);
    Some(())
}

// Whether the bytes are a stored form; where they are 2,048 their content is taken either way. So the answer is no Option: `content_after` says
// what is left in `content` where it is false too.
pub fn read_into(bytes: &[u8], content: &mut [u32; 504]) -> bool
    ensures value { result ≡ is_whole bytes.now }
    ensures content_after { content.new ≡ taken bytes.now content.old }
{
    let Some(form) = bytes.as_array::<2048>() else {
        return false;
    };
    reading::read_form(form, content)
}
