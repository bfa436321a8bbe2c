mod rankings;
