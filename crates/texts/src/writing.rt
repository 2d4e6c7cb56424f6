//! Numbers and pixels that are written: each in decimal.

ghost use Rattle.std.specs.Prelude.{◌≡◌, ◌+◌, ◌*◌, ◌∷◌, ◌++◌, ◌%◌, ◌≤◌, All, OnOk, length, take};
ghost use Rattle.std.specs.List.{flat_map};
ghost use Rattle.std.specs.Fmt.{decimal};
ghost use Rattle.std.specs.Io.{StartsWith};
ghost use Rattle.texts.specs.Fields.{IsPixel};

use std::alloc::AllocError;
use std::simd::u8x4;

// The byte of the last digit of a number.
fn last_digit(number: u64) -> u8
    ensures { result ≡ 48 + number % 10 }
{
    b'0' + (number % 10) as u8
}

/// Adds the text of a number.
///
/// # Errors
///
/// No memory was found. What was there before stays, and a part of the text may come after it.
#[tactic(auto, using(crate::proofs::Decimals::one_digit, crate::proofs::Decimals::last_digit, crate::proofs::Beginnings::beginnings))]
pub fn push_number(text: &mut Vec<u8>, number: u64) -> Result<(), AllocError>
    ensures text { OnOk result (text.new.items ≡ text.old.items ++ decimal number) }
    ensures kept { StartsWith text.new.items text.old.items }
{
    if number < 10 {
        return text.extend_from_slice(&[last_digit(number)]);
    }
    push_number(text, number / 10)?;
    text.extend_from_slice(&[last_digit(number)])?;
    Ok(())
}

// A space and the text of each pixel, in four bytes each.
static PIXEL_TEXTS: [u8; 1024] =
    *b" 0   1   2   3   4   5   6   7   8   9   10  11  12  13  14  15  \
      16  17  18  19  20  21  22  23  24  25  26  27  28  29  30  31  \
      32  33  34  35  36  37  38  39  40  41  42  43  44  45  46  47  \
      48  49  50  51  52  53  54  55  56  57  58  59  60  61  62  63  \
      64  65  66  67  68  69  70  71  72  73  74  75  76  77  78  79  \
      80  81  82  83  84  85  86  87  88  89  90  91  92  93  94  95  \
      96  97  98  99  100 101 102 103 104 105 106 107 108 109 110 111 \
      112 113 114 115 116 117 118 119 120 121 122 123 124 125 126 127 \
      128 129 130 131 132 133 134 135 136 137 138 139 140 141 142 143 \
      144 145 146 147 148 149 150 151 152 153 154 155 156 157 158 159 \
      160 161 162 163 164 165 166 167 168 169 170 171 172 173 174 175 \
      176 177 178 179 180 181 182 183 184 185 186 187 188 189 190 191 \
      192 193 194 195 196 197 198 199 200 201 202 203 204 205 206 207 \
      208 209 210 211 212 213 214 215 216 217 218 219 220 221 222 223 \
      224 225 226 227 228 229 230 231 232 233 234 235 236 237 238 239 \
      240 241 242 243 244 245 246 247 248 249 250 251 252 253 254 255";

// A space and the text of a pixel, at the front of four bytes, and how many of them it has. Tests
// that are summed up do without branches, which can't be predicted here.
#[inline(always)]
fn pixel_text(pixel: u8) -> (u8x4, usize)
    ensures text { take result.1 result.0 ≡ 32 ∷ decimal pixel }
    ensures lanes { length result.0 ≡ 4 }
    ensures short { result.1 ≤ 4 }
{
    let four = u8x4::from_slice(&PIXEL_TEXTS[pixel as usize * 4..]);
    (four, 2 + (pixel > 9) as usize + (pixel > 99) as usize)
}

// Writes a space and the text of a pixel at a place, and returns where it ends. What comes after it
// may change: one write of four bytes serves every length.
#[inline(always)]
fn place_pixel(block: &mut [u8], at: usize, pixel: u8) -> usize
    requires { at + 4 ≤ length block.old }
    ensures text { take result block.new ≡ take at block.old ++ 32 ∷ decimal pixel }
    ensures short { result ≤ at + 4 }
    ensures len { length block.new ≡ length block.old }
{
    let (four, size) = pixel_text(pixel);
    four.copy_to_slice(&mut block[at..]);
    at + size
}

/// Adds a space and the text of a pixel.
///
/// # Errors
///
/// No memory was found, and what was there before stays.
#[inline]
#[tactic(auto, using(crate::proofs::Beginnings::beginnings))]
pub fn push_pixel(text: &mut Vec<u8>, pixel: u8) -> Result<(), AllocError>
    ensures text { OnOk result (text.new.items ≡ text.old.items ++ 32 ∷ decimal pixel) }
    ensures kept { StartsWith text.new.items text.old.items }
{
    let mut block = [0; 4];
    let end = place_pixel(&mut block, 0, pixel);
    text.extend_from_slice(&block[..end])
}

// How many bytes a space and the text of a pixel have at most.
const LONGEST: usize = 4;

// How many pixels are written before they are added.
const BLOCK: usize = 128;

/// How many bytes `push_pixels` lays out before it adds them.
pub const PIXELS_ROOM: usize = LONGEST * BLOCK;

// Writes a space and the text of each pixel at the front of the block, and returns where they end.
fn place_cells(block: &mut [u8], cells: &[u8]) -> usize
    requires { 4 * length cells.now ≤ length block.old }
    ensures text { take result block.new ≡ flat_map (λ cell. 32 ∷ decimal cell) cells.now }
    ensures within { result ≤ length block.new }
    ensures len { length block.new ≡ length block.old }
{
    let mut end = 0;
    for cell in cells {
        end = place_pixel(block, end, *cell);
    }
    end
}

/// Adds a space and the text of each pixel.
///
/// # Requires
///
/// The block has at least `PIXELS_ROOM` bytes. The texts are laid out in it, so its bytes change.
///
/// # Errors
///
/// No memory was found. What was there before stays, and a part of the texts may come after it.
#[tactic(auto, using(crate::proofs::Beginnings::beginnings))]
pub fn push_pixels(text: &mut Vec<u8>, block: &mut [u8], cells: &[u8]) -> Result<(), AllocError>
    requires { 512 ≤ length block.old }
    ensures text { OnOk result
        (text.new.items ≡ text.old.items ++ flat_map (λ cell. 32 ∷ decimal cell) cells.now) }
    ensures kept { StartsWith text.new.items text.old.items }
    ensures pixels { OnOk result (All IsPixel cells.now) }
    ensures len { length block.new ≡ length block.old }
{
    let mut rest = cells;
    while !rest.is_empty() {
        let (some, others) = rest.split_at(rest.len().min(BLOCK));
        let end = place_cells(block, some);
        text.extend_from_slice(&block[..end])?;
        rest = others;
    }
    Ok(())
}
