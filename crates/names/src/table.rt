// The table of names: a line for each type and the satellites that send it so.

// A type as some satellites send it, and the names of its fields in their order, with a blank between two. The satellites are
// given by their numbers, as the documents' table is (FORMAT 6).
pub(crate) struct Line {
    pub(crate) ty: u32,
    pub(crate) sent_by: &'static [u32],
    pub(crate) names: &'static [u8],
}

// 001 describes satellite 0, 002 describes 1 to 4, 004 describes 5, and 000 describes 6.
pub(crate) static LINES: [Line; 13] = [
    Line {
        ty: 1,
        sent_by: &[1, 2, 3, 4, 5, 6],
        names: b"sclock spa spb spc spd spi vbus1 vbat1 vcpu vbus2 vbus3 vbat2 ibat icpu ipl peaksignal modasignal \
            lastcmdsignal lastcmdnoise",
    },
    Line {
        ty: 2,
        sent_by: &[0],
        names: b"tpa tpb tpc tpd tpe teps ttx ttx2 trx tcpu",
    },
    Line {
        ty: 2,
        sent_by: &[1, 2, 3, 4, 5, 6],
        names: b"sclock tpa tpb tpc tpd tpe teps ttx ttx2 trx tcpu",
    },
    Line {
        ty: 5,
        sent_by: &[0],
        names: b"mintpa mintpb mintpc mintpd mintpe minteps minttx minttx2 mintrx mintcpu maxtpa maxtpb maxtpc maxtpd maxtpe \
            maxteps maxttx maxttx2 maxtrx maxtcpu medtpa medtpb medtpc medtpd medtpe medteps medttx medttx2 medtrx \
            medtcpu",
    },
    Line {
        ty: 5,
        sent_by: &[1, 2, 3, 4],
        names: b"sclock mintpa mintpb mintpc mintpd mintpe minteps minttx minttx2 mintrx mintcpu maxtpa maxtpb maxtpc maxtpd \
            maxtpe maxtpeps maxttx maxttx2 maxtrx maxtcpu",
    },
    Line {
        ty: 5,
        sent_by: &[5, 6],
        names: b"sclock mintpa mintpb mintpc mintpd mintpe minteps minttx minttx2 mintrx mintcpu maxtpa maxtpb maxtpc maxtpd \
            maxtpe maxteps maxttx maxttx2 maxtrx maxtcpu",
    },
    Line {
        ty: 8,
        sent_by: &[0, 6],
        names: b"v1oc v1 i1 i1pk r1 v2oc v2 r2 t0 td state_begin state_end state_now enable counter tmp",
    },
    Line {
        ty: 10,
        sent_by: &[3, 5],
        names: b"clock_tx week_number stored_status data0 data1 data2 data3 data4 data5 data6 data7",
    },
    Line {
        ty: 11,
        sent_by: &[2],
        names: b"clock_tx data0 data1",
    },
    Line {
        ty: 12,
        sent_by: &[1, 2, 3, 4],
        names: b"utc adr ful fdl tle.epoch tle.xndt2o tle.xnnd6o tle.bstar tle.xincl tle.xnodeo tle.eo tle.omegao tle.xmo \
            tle.xno lat lon alt cnt",
    },
    Line {
        ty: 12,
        sent_by: &[5, 6],
        names: b"utc adr ful fdl tle.epoch tle.xndt2o tle.xndd6o tle.bstar tle.xincl tle.xnodeo tle.eo tle.omegao tle.xmo \
            tle.xno lat lon alt cnt",
    },
    Line {
        ty: 6,
        sent_by: &[1, 2, 3, 4, 5],
        names: b"td[0] td[1] td[2] td[3] td[4] td[5] v[0][0] v[0][1] v[0][2] v[0][3] v[0][4] v[0][5] v[1][0] v[1][1] v[1][2] \
            v[1][3] v[1][4] v[1][5] v[2][0] v[2][1] v[2][2] v[2][3] v[2][4] v[2][5] v[3][0] v[3][1] v[3][2] v[3][3] \
            v[3][4] v[3][5] v[4][0] v[4][1] v[4][2] v[4][3] v[4][4] v[4][5] v[5][0] v[5][1] v[5][2] v[5][3] v[5][4] \
            v[5][5] v[6][0] v[6][1] v[6][2] v[6][3] v[6][4] v[6][5] v[7][0] v[7][1] v[7][2] v[7][3] v[7][4] v[7][5] p[0] \
            p[1] p[2] p[3] p[4] p[5] p[6] p[7] err[0] err[1] err[2] err[3] err[4] err[5] err[6] err[7]",
    },
    Line {
        ty: 7,
        sent_by: &[1],
        names: b"sclock message_number data[0] data[1] data[2] data[3] data[4] data[5] data[6] data[7] data[8] data[9] \
            data[10] data[11] data[12] data[13] data[14] data[15] data[16] data[17] data[18] data[19] data[20] data[21] \
            data[22] data[23] data[24] data[25] data[26] data[27] data[28] data[29] data[30] data[31] data[32] data[33] \
            data[34] data[35] data[36] data[37] data[38] data[39] data[40] data[41] data[42] data[43] data[44] data[45] \
            data[46] data[47] data[48] data[49] data[50] data[51] data[52] data[53] data[54] data[55] data[56] data[57] \
            data[58] data[59] data[60] data[61] data[62] data[63] data[64] data[65] data[66] data[67] data[68] data[69] \
            data[70] data[71] data[72] data[73] data[74] data[75] data[76] data[77] data[78] data[79] data[80] data[81] \
            data[82] data[83] data[84] data[85] data[86] data[87] data[88] data[89] data[90] data[91] data[92]",
    },
];
