// The times of the four bins: source document 001, Table 1, and the times beside it that 01's table gives.
ghost use Rattle.std.specs.Prelude.{◌≡◌, ◌<◌};
ghost use Rattle.header.specs.Bins.{bin_of, row_of, time_at};

// The form that 01 names, four bins by eight times, read by bin and page. A row a bin, in ps: t_rcd and t_rp, t_rc, t_ras, t_rrd of a 1K page and of a 2K page, t_faw of both, t_cke.
const TIMES: [[u64; 8]; 4] = [
    [13125, 50625, 37500, 7500, 10000, 37500, 50000, 5625],
    [13125, 49500, 36000, 6000, 7500, 30000, 45000, 5625],
    [13125, 48750, 35000, 6000, 7500, 30000, 40000, 5000],
    [12840, 47080, 34240, 5000, 6000, 27000, 35000, 5000],
];

// The least period of each bin, in ps.
const LEAST: [u64; 4] = [1875, 1500, 1250, 1070];

// The row of a bin. A made-up bin above 3 is answered as bin 0.
pub(crate) fn row(bin: u8) -> usize
    ensures value { result ≡ row_of bin }
    ensures upper_bound { result < 4 }
{
    if bin < 4 {
        return bin as usize;
    }
    0
}

// The time in a column of a bin's row.
pub(crate) fn time(bin: u8, column: usize) -> u64
    requires { column < 8 }
    ensures { result ≡ time_at column (bin_of bin) }
{
    let at = row(bin);
    TIMES[at][column]
}

pub(crate) fn least(bin: u8) -> u64
    ensures { result ≡ (bin_of bin).least }
{
    let at = row(bin);
    LEAST[at]
}
