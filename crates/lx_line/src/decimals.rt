//! Places numbers below 100.

ghost use Rattle.std.specs.Prelude.{◌≡◌, ◌+◌, ◌<◌, ◌≤◌, ◌++◌, codes, decimal, length};
ghost use Rattle.lx_line.specs.Placed.{Placed};

use crate::place::place_4;

// The text of each number below 100 with a space after it, in four bytes. The last of them is the length.
static SHORT: [u8; 400] = *b"\
        0  \x021  \x022  \x023  \x024  \x025  \x026  \x027  \x028  \x029  \x02\
        10 \x0311 \x0312 \x0313 \x0314 \x0315 \x0316 \x0317 \x0318 \x0319 \x03\
        20 \x0321 \x0322 \x0323 \x0324 \x0325 \x0326 \x0327 \x0328 \x0329 \x03\
        30 \x0331 \x0332 \x0333 \x0334 \x0335 \x0336 \x0337 \x0338 \x0339 \x03\
        40 \x0341 \x0342 \x0343 \x0344 \x0345 \x0346 \x0347 \x0348 \x0349 \x03\
        50 \x0351 \x0352 \x0353 \x0354 \x0355 \x0356 \x0357 \x0358 \x0359 \x03\
        60 \x0361 \x0362 \x0363 \x0364 \x0365 \x0366 \x0367 \x0368 \x0369 \x03\
        70 \x0371 \x0372 \x0373 \x0374 \x0375 \x0376 \x0377 \x0378 \x0379 \x03\
        80 \x0381 \x0382 \x0383 \x0384 \x0385 \x0386 \x0387 \x0388 \x0389 \x03\
        90 \x0391 \x0392 \x0393 \x0394 \x0395 \x0396 \x0397 \x0398 \x0399 \x03";

/// Places a number below 100, and a space.
#[inline(always)]
pub fn place_short(buf: &mut [u8], at: usize, number: usize) -> usize
    requires room { at + 4 ≤ length buf.old }
    requires number { number < 100 }
    ensures placed { Placed buf.old buf.new at (decimal number ++ codes " ") result }
    ensures short { result ≤ at + 3 }
{
    let from = number * 4;
    place_4(buf, at, &SHORT, from, SHORT[from + 3] as usize)
}
